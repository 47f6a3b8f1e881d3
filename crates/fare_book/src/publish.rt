//! A text, or an edition, is published in a book.

ghost use Rattle.std.specs.Prelude.{◌≡◌, ◌≤◌, ◌++◌, ◌∷◌, ◌↔◌, [], true, IfErr, IsErrOf, IsTrue, OnOk};
ghost use Rattle.fare_ports.specs.Cause.{Rose};
ghost use Rattle.fare_ports.specs.Keeper.{WhereTold};
ghost use Rattle.fare_book.specs.Faults.{CarriesFault};
ghost use Rattle.fare_book.specs.Publish.{IsNewTo, Offers, Publishes, PublishesEdition};
ghost use Rattle.fare_book.specs.Reopens.{IsServed, Opens, Stay};
ghost use Rattle.fare_book.specs.Restored.{CarriesDamage};
ghost use Rattle.fare_book.specs.Stands.{KeepsStanding};

use crate::book::{Book, has_number};
use crate::publish_fault::PublishFault;
use crate::published::Published;
use crate::restore_fault::RestoreFault;
use fare_csv::{edition_text, read_edition};
use fare_ports::{KeepFault, Keeper};
use fare_tariff::{Edition, same_records};
use std::alloc::Global;
use std::thread::Threads;

impl Book {
    /// Publishes the edition that a text stands for: a new one is stored as its canonical text and becomes the last.
    ///
    /// A book that isn't settled is restored first. After a refusal the editions are as before, or as that restoring
    /// left them. `KeeperFault` comes only where the keeper's count rose; where the append failed, the book isn't
    /// settled. All memory is taken before the append.
    pub fn publish<R: Threads + Sync, P: Keeper>(
        &mut self,
        rt: &R,
        alloc: Global,
        keeper: &mut P,
        bytes: &[u8],
    ) -> Result<Published, PublishFault>
        requires { IsTrue (P.ready keeper.old) }
        ensures answer { Publishes self.old self.new bytes.now result (P.bodies keeper.old) (P.bodies keeper.new) }
        ensures stands { WhereTold (P.bodies keeper.old) (P.bodies keeper.new)
            (KeepsStanding self.old self.new result) }
        ensures carried { IfErr result CarriesFault }

        ensures ready { IsTrue (P.ready keeper.new) }
        ensures name { P.opened_as keeper.new ≡ P.opened_as keeper.old }
        ensures never_falls { P.faults keeper.old ≤ P.faults keeper.new }
        ensures cause { IsErrOf result PublishFault.KeeperFault → Rose (P.faults keeper.old) (P.faults keeper.new) }
    {
        let edition = read_edition(rt, alloc, bytes)?;
        self.publish_edition(rt, alloc, keeper, edition)
    }

    /// Publishes an edition: a new one is stored as its canonical text and becomes the last.
    ///
    /// What is left after a refusal, and when `KeeperFault` comes, is as for a text; no answer is `Malformed`.
    pub fn publish_edition<R: Threads + Sync, P: Keeper>(
        &mut self,
        rt: &R,
        alloc: Global,
        keeper: &mut P,
        edition: Edition,
    ) -> Result<Published, PublishFault>
        requires { IsTrue (P.ready keeper.old) }
        ensures answer { PublishesEdition self.old self.new edition result (P.bodies keeper.old) (P.bodies keeper.new) }
        ensures settled { self.old.settled ≡ true →
            Offers self.old.editions edition result self.new (P.bodies keeper.old) (P.bodies keeper.new) }
        ensures stands { WhereTold (P.bodies keeper.old) (P.bodies keeper.new)
            (KeepsStanding self.old self.new result) }
        ensures carried { IfErr result CarriesFault }

        ensures ready { IsTrue (P.ready keeper.new) }
        ensures name { P.opened_as keeper.new ≡ P.opened_as keeper.old }
        ensures never_falls { P.faults keeper.old ≤ P.faults keeper.new }
        ensures cause { IsErrOf result PublishFault.KeeperFault → Rose (P.faults keeper.old) (P.faults keeper.new) }
    {
        self.open(rt, alloc, keeper)?;
        self.offer(alloc, keeper, edition)
    }

    /// Restores a book that isn't settled.
    fn open<R: Threads + Sync, P: Keeper>(
        &mut self,
        rt: &R,
        alloc: Global,
        keeper: &mut P,
    ) -> Result<(), RestoreFault>
        requires { IsTrue (P.ready keeper.old) }
        ensures opens { Opens self.old self.new result (P.bodies keeper.old) (P.bodies keeper.new) }
        ensures bodies { Stay (P.bodies keeper.old) (P.bodies keeper.new) }
        ensures carried { IfErr result CarriesDamage }
        ensures name { P.opened_as keeper.new ≡ P.opened_as keeper.old }
        ensures served { IsServed (P.ready keeper.new) (P.faults keeper.old) (P.faults keeper.new)
            (IsErrOf result RestoreFault.KeeperFault) }
    {
        if !self.settled() {
            *self = Book::restore(rt, alloc, keeper)?;
        }
        Ok(())
    }

    /// Offers an edition to an open book.
    fn offer<P: Keeper>(
        &mut self,
        alloc: Global,
        keeper: &mut P,
        edition: Edition,
    ) -> Result<Published, PublishFault>
        requires ready { IsTrue (P.ready keeper.old) }
        requires settled { self.old.settled ≡ true }
        ensures offers { Offers self.old.editions edition result self.new (P.bodies keeper.old) (P.bodies keeper.new) }
        ensures name { P.opened_as keeper.new ≡ P.opened_as keeper.old }
        ensures served { IsServed (P.ready keeper.new) (P.faults keeper.old) (P.faults keeper.new)
            (IsErrOf result PublishFault.KeeperFault) }
    {
        let number = edition.number();
        if let Some(kept) = self.find(number) {
            if is_same(kept, &edition) {
                return Ok(Published::Already(number));
            }
            return Err(PublishFault::Differs(number));
        }
        if self.is_full() {
            return Err(PublishFault::Full);
        }
        self.store(alloc, keeper, edition)
    }

    /// Stores a new edition. Its text is made before the append.
    fn store<P: Keeper>(
        &mut self,
        alloc: Global,
        keeper: &mut P,
        edition: Edition,
    ) -> Result<Published, PublishFault>
        requires ready { IsTrue (P.ready keeper.old) }
        requires settled { self.old.settled ≡ true }
        requires new { IsNewTo self.old.editions edition }
        ensures offers { Offers self.old.editions edition result self.new (P.bodies keeper.old) (P.bodies keeper.new) }
        ensures name { P.opened_as keeper.new ≡ P.opened_as keeper.old }
        ensures served { IsServed (P.ready keeper.new) (P.faults keeper.old) (P.faults keeper.new)
            (IsErrOf result PublishFault.KeeperFault) }
    {
        let text = edition_text(alloc, &edition)?;
        match keeper.append(alloc, text.as_slice()) {
            Ok(()) => Ok(Published::New(self.add_new(edition))),
            Err(KeepFault::Memory) => Err(PublishFault::Memory),
            Err(KeepFault::Failed) => {
                self.unsettle();
                Err(PublishFault::KeeperFault)
            }
        }
    }

    /// Puts a new edition last, and gives its number.
    fn add_new(&mut self, edition: Edition) -> u32
        requires { IsNewTo self.old.editions edition }
        ensures book { self.new ≡ record {
          editions = self.old.editions ++ edition ∷ [];
          settled = self.old.settled;
        } }
        ensures number { result ≡ edition.number }
    {
        let number = edition.number();
        self.add(edition);
        number
    }
}

/// Whether two editions are the same: one number, one effective day, and the same records in the same order.
#[tactic(auto, using(crate::proofs::SameEditions::one_edition))]
fn is_same(one: &Edition, other: &Edition) -> bool
    ensures { IsTrue result ↔ (one.now ≡ other.now) }
{
    has_number(one, other.number())
        && one.effective().is(other.effective())
        && same_records(one.records(), other.records())
}
