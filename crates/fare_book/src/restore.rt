//! A book from the bodies of a keeper.

ghost use Rattle.std.specs.Prelude.{◌≡◌, ◌≢◌, ◌<◌, ◌≤◌, ◌+◌, [], length, true, None, position, IfOk, IfErr, IfSome};
ghost use Rattle.std.specs.Prelude.{OnOk, IsErrOf, IsTrue, Err, option_map};
ghost use Rattle.fare_ports.specs.Cause.{Rose};
ghost use Rattle.fare_csv.specs.TariffText.{edition_of};
ghost use Rattle.fare_book.specs.Book.{has_number, numbered};
ghost use Rattle.fare_book.specs.Editions.{DamageAt, edition_behind, editions_of, place_of, read_behind, with_body};
ghost use Rattle.fare_book.specs.Editions.{with_bodies};
ghost use Rattle.fare_book.specs.Reopens.{IsServed, Stay};
ghost use Rattle.fare_book.specs.Restored.{CarriesDamage, Gives};

use crate::book::{Book, MOST_EDITIONS, has_number};
use crate::damage::Damage;
use crate::restore_fault::RestoreFault;
use fare_csv::{TextFault, read_edition};
use fare_ports::Keeper;
use fare_tariff::Edition;
use std::alloc::Global;
use std::thread::Threads;

impl Book {
    /// The settled book of the editions that the keeper's bodies stand for. `KeeperFault` comes only where the keeper's
    /// count rose; `Damaged` tells the first place whose body is no edition's text or repeats a number, and place 33
    /// where there are more than 32 bodies. The bodies are as before.
    pub fn restore<R: Threads + Sync, P: Keeper>(
        rt: &R,
        alloc: Global,
        keeper: &mut P,
    ) -> Result<Book, RestoreFault>
        requires { IsTrue (P.ready keeper.old) }
        ensures answer { IfSome (P.bodies keeper.new) (λ bodies.
            Gives (λ book. book.editions) result (editions_of bodies)) }
        ensures settled { IfOk result (λ book. book.settled ≡ true) }
        ensures carried { IfErr result CarriesDamage }

        ensures bodies { Stay (P.bodies keeper.old) (P.bodies keeper.new) }
        ensures ready { IsTrue (P.ready keeper.new) }
        ensures name { P.opened_as keeper.new ≡ P.opened_as keeper.old }
        ensures never_falls { P.faults keeper.old ≤ P.faults keeper.new }
        ensures cause { IsErrOf result RestoreFault.KeeperFault → Rose (P.faults keeper.old) (P.faults keeper.new) }
    {
        let count = keeper.len(alloc)?;
        if count > MOST_EDITIONS as u64 {
            return Err(RestoreFault::Damaged(MOST_EDITIONS as u32 + 1, Damage::TooMany));
        }
        Book::of_bodies(rt, alloc, keeper, count as u32)
    }

    /// The settled book of the editions that so many bodies stand for.
    fn of_bodies<R: Threads + Sync, P: Keeper>(
        rt: &R,
        alloc: Global,
        keeper: &mut P,
        count: u32,
    ) -> Result<Book, RestoreFault>
        requires ready { IsTrue (P.ready keeper.old) }
        requires count { IfSome (P.bodies keeper.old) (λ bodies. length bodies ≡ count) }
        requires in_limit { count ≤ MOST_EDITIONS }
        ensures answer { IfSome (P.bodies keeper.new) (λ bodies.
            Gives (λ book. book.editions) result (with_bodies [] bodies)) }
        ensures settled { IfOk result (λ book. book.settled ≡ true) }
        ensures carried { IfErr result CarriesDamage }
        ensures bodies { Stay (P.bodies keeper.old) (P.bodies keeper.new) }
        ensures name { P.opened_as keeper.new ≡ P.opened_as keeper.old }
        ensures served { IsServed (P.ready keeper.new) (P.faults keeper.old) (P.faults keeper.new)
            (IsErrOf result RestoreFault.KeeperFault) }
    {
        let mut book = Book::empty(alloc)?;
        for index in 0..count {
            let body = keeper.load(alloc, index + 1)?;
            book.add_body(rt, alloc, body.as_slice())?;
        }
        Ok(book)
    }

    /// Puts the edition that a body stands for last.
    fn add_body<R: Threads + Sync>(
        &mut self,
        rt: &R,
        alloc: Global,
        body: &[u8],
    ) -> Result<(), RestoreFault>
        requires { length self.old.editions < MOST_EDITIONS }
        ensures answer { Gives (λ _. self.new.editions) result (with_body self.old.editions body.now) }
        ensures settled { self.new.settled ≡ self.old.settled }
        ensures length { OnOk result (length self.new.editions ≡ length self.old.editions + 1) }
        ensures carried { IfErr result CarriesDamage }
        ensures no_keeper { result ≢ Err RestoreFault.KeeperFault }
    {
        let edition = read_behind(rt, alloc, self.editions(), body)?;
        self.add(edition);
        Ok(())
    }
}

/// The edition that a body stands for behind others.
#[tactic(auto, unfolding(crate::specs::Editions::read_behind))]
fn read_behind<R: Threads + Sync>(
    rt: &R,
    alloc: Global,
    earlier: &[Edition],
    body: &[u8],
) -> Result<Edition, RestoreFault>
    requires { length earlier.now < MOST_EDITIONS }
    ensures answer { Gives (λ edition. edition) result (read_behind earlier.now body.now) }
    ensures new { IfOk result (λ edition. numbered edition.number earlier.now ≡ None) }
    ensures carried { IfErr result CarriesDamage }
    ensures no_keeper { result ≢ Err RestoreFault.KeeperFault }
{
    let place = earlier.len() as u32 + 1;
    let edition = match read_edition(rt, alloc, body) {
        Ok(edition) => edition,
        Err(TextFault::Memory) => return Err(RestoreFault::Memory),
        Err(fault) => return Err(RestoreFault::Damaged(place, Damage::Text(fault))),
    };
    match place_of(earlier, edition.number()) {
        Some(first) => Err(RestoreFault::Damaged(place, Damage::Repeat(first))),
        None => Ok(edition),
    }
}

/// The place of the edition of a number, counted from 1.
fn place_of(editions: &[Edition], number: u32) -> Option<u32>
    requires { length editions.now < MOST_EDITIONS }
    ensures place { result ≡ place_of number editions.now }
    ensures new { result ≡ None → numbered number editions.now ≡ None }
{
    match index_of(editions, number) {
        Some(index) => Some(index as u32 + 1),
        None => None,
    }
}

/// The index of the edition of a number.
fn index_of(editions: &[Edition], number: u32) -> Option<usize>
    ensures { result ≡ position (has_number number) editions.now }
{
    editions
        .iter()
        .position(|edition| has_number(edition, number))
}
