ghost use Rattle.std.specs.Prelude.{◌≡◌, ◌≤◌, ◌-◌, ◌++◌, ◌∷◌, [], is_some, slice_set, OnOk, IsErrOf, MatchResult};
ghost use Rattle.std.specs.Prelude.{IsSome, IsTrue, None};
ghost use Rattle.std.specs.Option.{ForSome};
ghost use Rattle.sqlite.specs.Held.{state};
ghost use Rattle.sqlite.specs.State.{HasCleanDisk};
ghost use Rattle.fare_ports.specs.Cause.{Rose};
ghost use Rattle.fare_ports.specs.Keeper.{BodiesStay, BodyAppended, BodyReplaced, HasPlace, MayAppend, MayReplace};
ghost use Rattle.fare_ports.specs.Keeper.{ToldAfter, WhereTold, first_name};
ghost use Rattle.fare_sqlite.specs.Kept.{LeavesJust, LeavesOr, kept};

use crate::count::counted;
use crate::{statements, table};
use fare_ports::{FirstName, KeepFault, Keeper};
use sqlite::{Alter, Connection};
use std::alloc::Global;
use std::marker::Model;

/// A keeper over a database: its bodies are the rows of one table, by place, and none where there is no table yet. It
/// tells them while the connection is open and outside a transaction, and falls silent where a failure of the disk shut
/// it.
///
/// Each call is committed by itself. Where a statement is refused for another cause than want of memory, the call fails
/// and is counted; the count stays at the last value of a u64. What is said of bodies and crashes rests on this: nobody
/// else writes the database, and the disk returns what was written.
#[derive(Drop)]
pub struct SqliteKeeper<S: Alter> {
    conn: Connection<S>,
    name: FirstName,
    faults: u64,
}

impl<S: Alter> Model for SqliteKeeper<S> {
    ghost use Rattle.std.specs.Prelude.{IsSome};
    ghost use Rattle.sqlite.specs.Held.{state};
    ghost use Rattle.fare_sqlite.specs.Kept.{Speaks};
    ghost use Rattle.fare_sqlite.specs.State.{KeeperState, keeper_code};

    ghost Value = { KeeperState S };

    ghost coded = { keeper_code S.code };

    ghost view = { λ k. record { conn = k.conn; name = k.name; faults = k.faults } };

    ghost invariant = { λ k. IsSome k.name → Speaks (state S.Store k.conn) };
}

impl<S: Alter> SqliteKeeper<S> {
    /// A keeper over that connection, not opened yet.
    pub fn over(conn: Connection<S>) -> SqliteKeeper<S>
        ensures { result ≡ record { conn = conn; name = None; faults = 0 } }
    {
        SqliteKeeper {
            conn,
            name: FirstName::new(),
            faults: 0,
        }
    }

    /// Whether a failure of the disk has shut the connection. It then tells nothing any more.
    pub fn is_shut(&mut self) -> bool
        ensures told { ToldAfter (kept (state S.Store self.old.conn)) (kept (state S.Store self.new.conn)) BodiesStay }
        ensures shut { IsTrue result → kept (state S.Store self.new.conn) ≡ None }
        ensures name { self.new.name ≡ self.old.name }
        ensures faults { self.new.faults ≡ self.old.faults }
    {
        statements::is_shut(&mut self.conn)
    }

    /// The connection that it was over.
    pub fn into_connection(self) -> Connection<S>
        ensures { result ≡ self.conn }
    {
        self.conn
    }
}

impl<S: Alter> Keeper for SqliteKeeper<S> {
    ghost bodies = { λ keeper. kept (state S.Store keeper.conn) };

    ghost faults = { λ keeper. keeper.faults };

    ghost ready = { λ keeper. is_some keeper.name };

    ghost opened_as = { λ keeper. keeper.name };

    /// Makes the table where the database is blank. It fails where the database holds anything but
    /// that table, or where the table isn't a body at each place from 1 to their count. The first
    /// name is kept, and opens nothing. What it tells then was told before.
    fn open(&mut self, alloc: Global, name: &str) -> Result<(), KeepFault>
        ensures told { ToldAfter (kept (state S.Store self.old.conn)) (kept (state S.Store self.new.conn)) BodiesStay }
        ensures bodies { WhereTold (kept (state S.Store self.old.conn)) (kept (state S.Store self.new.conn))
            BodiesStay }
        ensures name { MatchResult result (λ _. self.new.name ≡ first_name self.old.name name.now)
            (λ _. self.new.name ≡ self.old.name) }
        ensures never_falls { self.old.faults ≤ self.new.faults }
        ensures cause { IsErrOf result KeepFault.Failed → Rose self.old.faults self.new.faults }
    {
        let answer = table::adopt(&mut self.conn);
        counted(&mut self.faults, answer)?;
        Ok(self.name.keep(alloc, name)?)
    }

    fn len(&mut self, _alloc: Global) -> Result<u64, KeepFault> {
        let answer = table::count(&mut self.conn);
        counted(&mut self.faults, answer)
    }

    fn load(&mut self, _alloc: Global, place: u32) -> Result<Vec<u8>, KeepFault> {
        let answer = table::load(&mut self.conn, place);
        counted(&mut self.faults, answer)
    }

    /// Adds a body at the end. After Ok a crash leaves just the bodies that are kept then; otherwise it leaves what it
    /// could leave before, or those.
    fn append(&mut self, _alloc: Global, body: &[u8]) -> Result<(), KeepFault>
        requires { IsSome self.old.name }
        ensures ok { OnOk result (ToldAfter (kept (state S.Store self.old.conn)) (kept (state S.Store self.new.conn))
            (BodyAppended body.now)) }
        ensures memory { IsErrOf result KeepFault.Memory →
            ToldAfter (kept (state S.Store self.old.conn)) (kept (state S.Store self.new.conn)) BodiesStay }
        ensures failed { IsErrOf result KeepFault.Failed →
            ToldAfter (kept (state S.Store self.old.conn)) (kept (state S.Store self.new.conn)) (MayAppend body.now) }
        ensures just { OnOk result (HasCleanDisk (state S.Store self.new.conn) →
            ForSome (kept (state S.Store self.old.conn))
            (λ bodies. LeavesJust (state S.Store self.new.conn) (bodies ++ body.now ∷ []))) }
        ensures crash { HasCleanDisk (state S.Store self.new.conn) → ForSome (kept (state S.Store self.old.conn))
            (λ bodies. LeavesOr (state S.Store self.old.conn) (state S.Store self.new.conn) (bodies ++ body.now ∷ [])) }
        ensures name { self.new.name ≡ self.old.name }
        ensures never_falls { self.old.faults ≤ self.new.faults }
        ensures cause { IsErrOf result KeepFault.Failed → Rose self.old.faults self.new.faults }
    {
        let answer = table::append(&mut self.conn, body);
        counted(&mut self.faults, answer)
    }

    /// Puts another body at that place. After Ok a crash leaves just the bodies that are kept then; otherwise it leaves
    /// what it could leave before, or those.
    fn replace(&mut self, _alloc: Global, place: u32, body: &[u8]) -> Result<(), KeepFault>
        requires ready { IsSome self.old.name }
        requires place { ForSome (kept (state S.Store self.old.conn)) (HasPlace place) }
        ensures ok { OnOk result (ToldAfter (kept (state S.Store self.old.conn)) (kept (state S.Store self.new.conn))
            (BodyReplaced place body.now)) }
        ensures memory { IsErrOf result KeepFault.Memory →
            ToldAfter (kept (state S.Store self.old.conn)) (kept (state S.Store self.new.conn)) BodiesStay }
        ensures failed { IsErrOf result KeepFault.Failed → ToldAfter (kept (state S.Store self.old.conn))
            (kept (state S.Store self.new.conn)) (MayReplace place body.now) }
        ensures just { OnOk result (HasCleanDisk (state S.Store self.new.conn) →
            ForSome (kept (state S.Store self.old.conn)) (λ bodies. LeavesJust (state S.Store self.new.conn)
            (slice_set bodies (place - 1) body.now))) }
        ensures crash { HasCleanDisk (state S.Store self.new.conn) → ForSome (kept (state S.Store self.old.conn))
            (λ bodies. LeavesOr (state S.Store self.old.conn) (state S.Store self.new.conn)
            (slice_set bodies (place - 1) body.now)) }
        ensures name { self.new.name ≡ self.old.name }
        ensures never_falls { self.old.faults ≤ self.new.faults }
        ensures cause { IsErrOf result KeepFault.Failed → Rose self.old.faults self.new.faults }
    {
        let answer = table::replace(&mut self.conn, place, body);
        counted(&mut self.faults, answer)
    }
}
