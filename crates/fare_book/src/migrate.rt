//! Stored bodies are brought into the canonical texts of their editions.

ghost use Rattle.std.specs.Prelude.{◌≡◌, ◌≤◌, length, true, IfOk, IfErr, IfSome, OnOk, IsErrOf, IsTrue, count_by};
ghost use Rattle.std.specs.Option.{ForSome};
ghost use Rattle.fare_ports.specs.Cause.{Rose};
ghost use Rattle.fare_ports.specs.Keeper.{ToldAfter};
ghost use Rattle.fare_book.specs.Migration.{IsCutOff, IsMigrated, LeavesBook, MayRespell, Migrates, ReadAs, Respells};
ghost use Rattle.fare_book.specs.Migration.{SameEditions, StandsAt, StopsShort, is_old};
ghost use Rattle.fare_book.specs.Reopens.{IsServed};
ghost use Rattle.fare_book.specs.Restored.{CarriesDamage};

use crate::book::{Book, MOST_EDITIONS};
use crate::restore_fault::RestoreFault;
use fare_csv::edition_text;
use fare_ports::Keeper;
use fare_tariff::Edition;
use std::alloc::Global;
use std::thread::Threads;

impl Book {
    /// Restores the book, replaces each body that isn't the canonical text of its edition by that text, in the order of
    /// places, and answers how many it replaced. The bodies stand for the same editions before and after.
    ///
    /// `Damaged` is that of a restoring, and `KeeperFault` comes only where the keeper's count rose. After a refusal of
    /// the restoring the book and the bodies are as before. After any other the book is restored, and the bodies at
    /// some first places are replaced; a later migration goes on from there.
    pub fn migrate<R: Threads + Sync, P: Keeper>(
        &mut self,
        rt: &R,
        alloc: Global,
        keeper: &mut P,
    ) -> Result<u32, RestoreFault>
        requires { IsTrue (P.ready keeper.old) }
        ensures answer { ToldAfter (P.bodies keeper.old) (P.bodies keeper.new) (Migrates self.old self.new result) }
        ensures book { LeavesBook self.old self.new result }
        ensures editions { ToldAfter (P.bodies keeper.old) (P.bodies keeper.new) SameEditions }
        ensures canonical { OnOk result (IfSome (P.bodies keeper.new) (λ bodies. count_by is_old bodies ≡ 0)) }
        ensures carried { IfErr result CarriesDamage }

        ensures ready { IsTrue (P.ready keeper.new) }
        ensures name { P.opened_as keeper.new ≡ P.opened_as keeper.old }
        ensures never_falls { P.faults keeper.old ≤ P.faults keeper.new }
        ensures cause { IsErrOf result RestoreFault.KeeperFault → Rose (P.faults keeper.old) (P.faults keeper.new) }
    {
        *self = Book::restore(rt, alloc, keeper)?;
        migrate_bodies(alloc, keeper, self.editions())
    }
}

/// Brings the bodies of these editions into canonical spelling, in the order of places, and answers how many weren't.
fn migrate_bodies<P: Keeper>(
    alloc: Global,
    keeper: &mut P,
    editions: &[Edition],
) -> Result<u32, RestoreFault>
    requires ready { IsTrue (P.ready keeper.old) }
    requires read { ForSome (P.bodies keeper.old) (ReadAs editions.now) }
    requires in_limit { length editions.now ≤ MOST_EDITIONS }
    ensures ok { IfOk result (λ count. ToldAfter (P.bodies keeper.old) (P.bodies keeper.new) (IsMigrated count)) }
    ensures err { IfErr result (λ _. ToldAfter (P.bodies keeper.old) (P.bodies keeper.new) StopsShort) }
    ensures cut_off { IfErr result IsCutOff }
    ensures name { P.opened_as keeper.new ≡ P.opened_as keeper.old }
    ensures served { IsServed (P.ready keeper.new) (P.faults keeper.old) (P.faults keeper.new)
        (IsErrOf result RestoreFault.KeeperFault) }
{
    let mut count = 0;
    for (index, edition) in editions.iter().enumerate() {
        let replaced = migrate_body(alloc, keeper, index as u32 + 1, edition)?;
        count += u32::from(replaced);
    }
    Ok(count)
}

/// Brings the body of an edition into canonical spelling, and answers whether it wasn't.
fn migrate_body<P: Keeper>(
    alloc: Global,
    keeper: &mut P,
    place: u32,
    edition: &Edition,
) -> Result<bool, RestoreFault>
    requires ready { IsTrue (P.ready keeper.old) }
    requires stands { ForSome (P.bodies keeper.old) (StandsAt place edition.now) }
    ensures ok { IfOk result (λ replaced.
        ToldAfter (P.bodies keeper.old) (P.bodies keeper.new) (Respells place replaced)) }
    ensures err { IfErr result (λ _. ToldAfter (P.bodies keeper.old) (P.bodies keeper.new) (MayRespell place)) }
    ensures cut_off { IfErr result IsCutOff }
    ensures name { P.opened_as keeper.new ≡ P.opened_as keeper.old }
    ensures served { IsServed (P.ready keeper.new) (P.faults keeper.old) (P.faults keeper.new)
        (IsErrOf result RestoreFault.KeeperFault) }
{
    let text = edition_text(alloc, edition)?;
    let body = keeper.load(alloc, place)?;
    if body.as_slice() == text.as_slice() {
        return Ok(false);
    }
    keeper.replace(alloc, place, text.as_slice())?;
    Ok(true)
}
