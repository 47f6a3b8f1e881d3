ghost use Rattle.std.specs.Prelude.{◌≡◌, ◌≤◌, ◌-◌, ◌||◌, ◌++◌, ◌∷◌, [], true, false, is_ok, length, slice_set, OnOk};
ghost use Rattle.std.specs.Prelude.{IfOk, IfSome};
ghost use Rattle.std.specs.Prelude.{IsErrOf, IsTrue, MatchResult, None, Some};
ghost use Rattle.std.specs.Option.{ForSome};
ghost use Rattle.sqlite.specs.Held.{state};
ghost use Rattle.fare_ports.specs.Cause.{Rose};
ghost use Rattle.fare_ports.specs.Keeper.{BodiesStay, BodyAppended, BodyReplaced, HasPlace, MayAppend, MayReplace};
ghost use Rattle.fare_ports.specs.Keeper.{ToldAfter, WhereTold, body_at, first_name};
ghost use Rattle.fare_sqlite.specs.Kept.{kept};
ghost use Rattle.fare_sqlite.specs.Named.{LeavesChanged, MayLeaveChanged, found_in, opened_of, told_of};

use crate::SqliteKeeper;
use crate::count::counted;
use crate::if_there::{load_if_there, replace_if_there};
use crate::opener::Opener;
use fare_ports::{KeepFault, Keeper};
use sqlite::Alter;
use std::alloc::Global;
use std::marker::Model;

/// A keeper over the database of a name, which `open` opens. It tells the bodies of the database as it is found, where
/// its opener tells them, and then those of its table.
///
/// Where a failure of the disk has shut the connection, `open` and `len` open the database again by the name by which
/// it was opened, as a start of the program would. What stands in it then isn't told.
#[derive(Drop)]
pub struct NamedKeeper<A: Alter, O: Opener<A>> {
    opener: O,
    name: String,
    table: Option<SqliteKeeper<A>>,
    is_as_found: bool,
    is_ready: bool,
    faults: u64,
}

impl<A: Alter, O: Opener<A>> Model for NamedKeeper<A, O> {
    ghost use Rattle.std.specs.Prelude.{◌≡◌, IfSome, IsTrue, Some, string_bytes};
    ghost use Rattle.fare_sqlite.specs.Named.{NamedState, named_code};

    ghost Value = { NamedState A };

    ghost coded = { named_code A.code };

    ghost view = { λ k. record {
      name = string_bytes k.name;
      table = k.table;
      is_as_found = k.is_as_found;
      is_ready = k.is_ready;
      faults = k.faults;
    } };

    ghost invariant = { λ k.
        IfSome k.table (λ table. (table.name ≡ Some (string_bytes k.name)) × IsTrue k.is_ready) };
}

impl<A: Alter + Drop, O: Opener<A>> NamedKeeper<A, O> {
    /// A keeper over no database yet.
    pub fn over(alloc: Global, opener: O) -> NamedKeeper<A, O>
        ensures { result ≡ record { name = []; table = None; is_as_found = true; is_ready = false; faults = 0 } }
    {
        NamedKeeper {
            opener,
            name: String::new(alloc),
            table: None,
            is_as_found: true,
            is_ready: false,
            faults: 0,
        }
    }

    fn open_table(&mut self, alloc: Global, name: &str) -> Result<(), KeepFault>
        ensures told { WhereTold (told_of A.Store O.Opener.bodies self.old) (told_of A.Store O.Opener.bodies self.new)
            BodiesStay }
        ensures ready { self.new.is_ready ≡ (self.old.is_ready || is_ok result) }
        ensures name { MatchResult result (λ _. opened_of self.new ≡ first_name (opened_of self.old) name.now)
            (λ _. opened_of self.new ≡ opened_of self.old) }
        ensures faults { self.new.faults ≡ self.old.faults }
    {
        let Some(table) = &mut self.table else {
            return self.open_named(alloc, name);
        };
        match table.open(alloc, name) {
            Err(KeepFault::Failed) => self.mend(alloc),
            answer => answer,
        }
    }

    /// Opens the database of that name, or of the one by which it was opened before.
    fn open_named(&mut self, alloc: Global, name: &str) -> Result<(), KeepFault>
        requires { self.old.table ≡ None }
        ensures told { WhereTold (told_of A.Store O.Opener.bodies self.old) (told_of A.Store O.Opener.bodies self.new)
            BodiesStay }
        ensures ready { self.new.is_ready ≡ (self.old.is_ready || is_ok result) }
        ensures name { MatchResult result (λ _. opened_of self.new ≡ first_name (opened_of self.old) name.now)
            (λ _. opened_of self.new ≡ opened_of self.old) }
        ensures faults { self.new.faults ≡ self.old.faults }
    {
        if !self.is_ready {
            self.name = String::from_str(alloc, name)?;
        }
        self.fill(alloc)
    }

    /// Opens the database where none is open.
    fn fill(&mut self, alloc: Global) -> Result<(), KeepFault>
        requires { self.old.table ≡ None }
        ensures told { WhereTold (told_of A.Store O.Opener.bodies self.old) (told_of A.Store O.Opener.bodies self.new)
            BodiesStay }
        ensures lost { self.old.is_as_found ≡ false → self.new.is_as_found ≡ false }
        ensures ready { self.new.is_ready ≡ (self.old.is_ready || is_ok result) }
        ensures name { self.new.name ≡ self.old.name }
        ensures faults { self.new.faults ≡ self.old.faults }
    {
        let is_first = self.is_as_found;
        self.is_as_found = false;
        let table = opened(&mut self.opener, alloc, self.name.as_str())?;
        self.table = Some(table);
        self.is_as_found = is_first;
        self.is_ready = true;
        Ok(())
    }

    /// Opens the database again after a call that failed, where its connection was shut, and else fails.
    fn mend(&mut self, alloc: Global) -> Result<(), KeepFault>
        ensures told { ToldAfter (told_of A.Store O.Opener.bodies self.old) (told_of A.Store O.Opener.bodies self.new)
            BodiesStay }
        ensures lost { OnOk result (self.new.is_as_found ≡ false) }
        ensures ready { self.new.is_ready ≡ (self.old.is_ready || is_ok result) }
        ensures name { self.new.name ≡ self.old.name }
        ensures faults { self.new.faults ≡ self.old.faults }
    {
        if let Some(table) = &mut self.table
            && !table.is_shut()
        {
            return Err(KeepFault::Failed);
        }
        // A file is locked as long as it is open.
        self.table = None;
        self.is_as_found = false;
        self.fill(alloc)
    }
}

impl<A: Alter + Drop, O: Opener<A>> NamedKeeper<A, O> {
    /// How many bodies there are, by the database opened again where its connection was shut.
    fn count(&mut self, alloc: Global) -> Result<u64, KeepFault>
        requires { IsTrue self.old.is_ready }
        ensures count { IfOk result (λ count.
            IfSome (told_of A.Store O.Opener.bodies self.new) (λ bodies. count ≡ length bodies)) }
        ensures told { ToldAfter (told_of A.Store O.Opener.bodies self.old) (told_of A.Store O.Opener.bodies self.new)
            BodiesStay }
        ensures ready { IsTrue self.new.is_ready }
        ensures name { self.new.name ≡ self.old.name }
        ensures faults { self.new.faults ≡ self.old.faults }
    {
        match self.count_once(alloc) {
            Err(KeepFault::Failed) => {}
            answer => return answer,
        }
        self.mend(alloc)?;
        self.count_once(alloc)
    }

    /// How many bodies there are.
    fn count_once(&mut self, alloc: Global) -> Result<u64, KeepFault>
        requires { IsTrue self.old.is_ready }
        ensures count { IfOk result (λ count.
            IfSome (told_of A.Store O.Opener.bodies self.new) (λ bodies. count ≡ length bodies)) }
        ensures told { ToldAfter (told_of A.Store O.Opener.bodies self.old) (told_of A.Store O.Opener.bodies self.new)
            BodiesStay }
        ensures lost { self.old.is_as_found ≡ false → self.new.is_as_found ≡ false }
        ensures ready { IsTrue self.new.is_ready }
        ensures name { self.new.name ≡ self.old.name }
        ensures faults { self.new.faults ≡ self.old.faults }
    {
        match &mut self.table {
            Some(table) => table.len(alloc),
            None => Err(KeepFault::Failed),
        }
    }

    /// The body at that place.
    fn body_at(&mut self, alloc: Global, place: u32) -> Result<Vec<u8>, KeepFault>
        requires ready { IsTrue self.old.is_ready }
        requires place { ForSome (told_of A.Store O.Opener.bodies self.old) (HasPlace place) }
        ensures body { IfOk result (λ body. IfSome (told_of A.Store O.Opener.bodies self.new)
            (λ bodies. body_at place bodies ≡ Some body.items)) }
        ensures told { ToldAfter (told_of A.Store O.Opener.bodies self.old) (told_of A.Store O.Opener.bodies self.new)
            BodiesStay }
        ensures ready { IsTrue self.new.is_ready }
        ensures name { self.new.name ≡ self.old.name }
        ensures faults { self.new.faults ≡ self.old.faults }
    {
        let is_told = self.is_as_found;
        let Some(table) = &mut self.table else {
            return Err(KeepFault::Failed);
        };
        if is_told {
            table.load(alloc, place)
        } else {
            load_if_there(table, alloc, place)
        }
    }

    /// Puts another body at that place.
    fn put_at(&mut self, alloc: Global, place: u32, body: &[u8]) -> Result<(), KeepFault>
        requires ready { IsTrue self.old.is_ready }
        requires place { ForSome (told_of A.Store O.Opener.bodies self.old) (HasPlace place) }
        ensures ok { OnOk result (ToldAfter (told_of A.Store O.Opener.bodies self.old)
            (told_of A.Store O.Opener.bodies self.new) (BodyReplaced place body.now)) }
        ensures memory { IsErrOf result KeepFault.Memory → ToldAfter (told_of A.Store O.Opener.bodies self.old)
            (told_of A.Store O.Opener.bodies self.new) BodiesStay }
        ensures failed { IsErrOf result KeepFault.Failed → ToldAfter (told_of A.Store O.Opener.bodies self.old)
            (told_of A.Store O.Opener.bodies self.new) (MayReplace place body.now) }
        ensures ready { IsTrue self.new.is_ready }
        ensures name { self.new.name ≡ self.old.name }
        ensures faults { self.new.faults ≡ self.old.faults }
    {
        let is_told = self.is_as_found;
        let Some(table) = &mut self.table else {
            return Err(KeepFault::Failed);
        };
        if is_told {
            table.replace(alloc, place, body)
        } else {
            replace_if_there(table, alloc, place, body)
        }
    }
}

impl<A: Alter + Drop, O: Opener<A>> Keeper for NamedKeeper<A, O> {
    ghost bodies = { λ keeper. told_of A.Store O.Opener.bodies keeper };

    ghost faults = { λ keeper. keeper.faults };

    ghost ready = { λ keeper. keeper.is_ready };

    ghost opened_as = { opened_of };

    /// Opens the database of that name. Once that has succeeded it opens the same table again, and
    /// doesn't look at the name. It fails where the opener does, and where the database holds anything
    /// but a table of editions, which it keeps.
    fn open(&mut self, alloc: Global, name: &str) -> Result<(), KeepFault> {
        let answer = self.open_table(alloc, name);
        counted(&mut self.faults, answer)
    }

    fn len(&mut self, alloc: Global) -> Result<u64, KeepFault> {
        let answer = self.count(alloc);
        counted(&mut self.faults, answer)
    }

    fn load(&mut self, alloc: Global, place: u32) -> Result<Vec<u8>, KeepFault> {
        let answer = self.body_at(alloc, place);
        counted(&mut self.faults, answer)
    }

    /// Adds a body at the end. After Ok a crash leaves just the bodies that are kept then; otherwise it leaves what it
    /// could leave before, or those.
    fn append(&mut self, alloc: Global, body: &[u8]) -> Result<(), KeepFault>
        requires { IsTrue self.old.is_ready }
        ensures ok { OnOk result (ToldAfter (told_of A.Store O.Opener.bodies self.old)
            (told_of A.Store O.Opener.bodies self.new) (BodyAppended body.now)) }
        ensures memory { IsErrOf result KeepFault.Memory → ToldAfter (told_of A.Store O.Opener.bodies self.old)
            (told_of A.Store O.Opener.bodies self.new) BodiesStay }
        ensures failed { IsErrOf result KeepFault.Failed → ToldAfter (told_of A.Store O.Opener.bodies self.old)
            (told_of A.Store O.Opener.bodies self.new) (MayAppend body.now) }
        ensures just { OnOk result
            (LeavesChanged A.Store (found_in self.old) (found_in self.new) (λ bodies. bodies ++ body.now ∷ [])) }
        ensures crash { MayLeaveChanged A.Store (found_in self.old) (found_in self.new)
            (λ bodies. bodies ++ body.now ∷ []) }
        ensures ready { IsTrue self.new.is_ready }
        ensures name { self.new.name ≡ self.old.name }
        ensures never_falls { self.old.faults ≤ self.new.faults }
        ensures cause { IsErrOf result KeepFault.Failed → Rose self.old.faults self.new.faults }
    {
        let answer = match &mut self.table {
            Some(table) => table.append(alloc, body),
            None => Err(KeepFault::Failed),
        };
        counted(&mut self.faults, answer)
    }

    /// Puts another body at that place. After Ok a crash leaves just the bodies that are kept then; otherwise it leaves
    /// what it could leave before, or those.
    fn replace(&mut self, alloc: Global, place: u32, body: &[u8]) -> Result<(), KeepFault>
        requires ready { IsTrue self.old.is_ready }
        requires place { ForSome (told_of A.Store O.Opener.bodies self.old) (HasPlace place) }
        ensures ok { OnOk result (ToldAfter (told_of A.Store O.Opener.bodies self.old)
            (told_of A.Store O.Opener.bodies self.new) (BodyReplaced place body.now)) }
        ensures memory { IsErrOf result KeepFault.Memory → ToldAfter (told_of A.Store O.Opener.bodies self.old)
            (told_of A.Store O.Opener.bodies self.new) BodiesStay }
        ensures failed { IsErrOf result KeepFault.Failed → ToldAfter (told_of A.Store O.Opener.bodies self.old)
            (told_of A.Store O.Opener.bodies self.new) (MayReplace place body.now) }
        ensures ready { IsTrue self.new.is_ready }
        ensures name { self.new.name ≡ self.old.name }
        ensures never_falls { self.old.faults ≤ self.new.faults }
        ensures cause { IsErrOf result KeepFault.Failed → Rose self.old.faults self.new.faults }
    {
        let answer = self.put_at(alloc, place, body);
        counted(&mut self.faults, answer)
    }
}

/// A keeper over the table of the database of that name, which is opened.
fn opened<A: Alter + Drop, O: Opener<A>>(
    opener: &mut O,
    alloc: Global,
    name: &str,
) -> Result<SqliteKeeper<A>, KeepFault>
    ensures told { IfOk result (λ table. WhereTold O.Opener.bodies (kept (state A.Store table.conn)) BodiesStay) }
    ensures name { IfOk result (λ table. table.name ≡ Some name.now) }
{
    let mut table = SqliteKeeper::over(opener.open(name)?);
    table.open(alloc, name)?;
    Ok(table)
}
