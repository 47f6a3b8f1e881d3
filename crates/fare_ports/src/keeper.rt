ghost use Rattle.std.specs.Prelude.{◌≡◌, ℕ, ◌≤◌, ◌||◌, Bool, List, Option, length, is_ok, IfOk, IfSome, OnOk, IsErrOf};
ghost use Rattle.std.specs.Prelude.{IsTrue, Some, MatchResult};
ghost use Rattle.std.specs.Option.{ForSome};
ghost use Rattle.fare_ports.specs.declared.keeper.KeepFault.TheVariants.{Memory};
ghost use Rattle.fare_ports.specs.Cause.{Rose};
ghost use Rattle.fare_ports.specs.Keeper.{ToldAfter, WhereTold, BodiesStay, BodyAppended, MayAppend, BodyReplaced};
ghost use Rattle.fare_ports.specs.Keeper.{MayReplace, HasPlace, body_at, first_name};

use crate::no_memory::NoMemory;
use std::alloc::{AllocError, AllocFailed, Global};

/// Why a call on a keeper was refused.
#[derive(Clone, Copy, Debug, PartialEq, Eq)]
pub enum KeepFault {
    /// Memory was wanting; the bodies are as before.
    Memory,
    /// The keeper failed, and its count rose.
    Failed,
}

impl From<AllocError> for KeepFault {
    ghost from_gives = { λ _ e. e ≡ Memory };

    fn from(_: AllocError) -> Self {
        KeepFault::Memory
    }
}

impl<T: Drop> From<AllocFailed<T>> for KeepFault {
    ghost from_gives = { λ _ e. e ≡ Memory };

    fn from(_: AllocFailed<T>) -> Self {
        KeepFault::Memory
    }
}

impl From<NoMemory> for KeepFault {
    ghost from_gives = { λ _ e. e ≡ Memory };

    fn from(_: NoMemory) -> Self {
        KeepFault::Memory
    }
}

/// What bodies are kept in, in the order in which they came. Places run from 1.
///
/// What a call did to the bodies is known where they are told after it: a keeper may fall silent,
/// and speaks up at `open` alone.
pub trait Keeper {
    /// The bodies by place, where they are told.
    ghost bodies: { Self → Option (List (List ℕ)) };

    /// How many calls have failed.
    ghost faults: { Self → ℕ };

    /// Whether `open` has answered Ok.
    ghost ready: { Self → Bool };

    /// The name with which `open` answered Ok first, once it has.
    ghost opened_as: { Self → Option (List ℕ) };

    /// Opens the store of that name, or the one that was opened before. Bodies that were told before
    /// are as before, whatever it answers; a keeper that told nothing may tell its bodies from then on.
    fn open(&mut self, alloc: Global, name: &str) -> Result<(), KeepFault>
        ensures bodies { WhereTold (bodies self.old) (bodies self.new) BodiesStay }
        ensures ready { ready self.new ≡ (ready self.old || is_ok result) }
        ensures name { MatchResult result (λ _. opened_as self.new ≡ first_name (opened_as self.old) name.now)
            (λ _. opened_as self.new ≡ opened_as self.old) }
        ensures never_falls { faults self.old ≤ faults self.new }
        ensures cause { IsErrOf result KeepFault.Failed →
            Rose (faults self.old) (faults self.new) };

    /// How many bodies there are. They are as before, whatever it answers.
    fn len(&mut self, alloc: Global) -> Result<u64, KeepFault>
        requires { IsTrue (ready self.old) }
        ensures count { IfOk result (λ count.
            IfSome (bodies self.new) (λ kept. count ≡ length kept)) }
        ensures bodies { ToldAfter (bodies self.old) (bodies self.new) BodiesStay }
        ensures ready { IsTrue (ready self.new) }
        ensures name { opened_as self.new ≡ opened_as self.old }
        ensures never_falls { faults self.old ≤ faults self.new }
        ensures cause { IsErrOf result KeepFault.Failed →
            Rose (faults self.old) (faults self.new) };

    /// The body at that place. The bodies are as before, whatever it answers. Where they aren't
    /// told, a place that isn't there is a counted failure.
    fn load(&mut self, alloc: Global, place: u32) -> Result<Vec<u8>, KeepFault>
        requires ready { IsTrue (ready self.old) }
        requires place { ForSome (bodies self.old) (HasPlace place) }
        ensures body { IfOk result (λ body.
            IfSome (bodies self.new) (λ kept. body_at place kept ≡ Some body.items)) }
        ensures bodies { ToldAfter (bodies self.old) (bodies self.new) BodiesStay }
        ensures ready { IsTrue (ready self.new) }
        ensures name { opened_as self.new ≡ opened_as self.old }
        ensures never_falls { faults self.old ≤ faults self.new }
        ensures cause { IsErrOf result KeepFault.Failed →
            Rose (faults self.old) (faults self.new) };

    /// Adds a body at the end. `Memory` leaves the bodies; after `Failed` they are the old ones, or
    /// those with the new one at the end.
    fn append(&mut self, alloc: Global, body: &[u8]) -> Result<(), KeepFault>
        requires { IsTrue (ready self.old) }
        ensures ok { OnOk result
            (ToldAfter (bodies self.old) (bodies self.new) (BodyAppended body.now)) }
        ensures memory { IsErrOf result KeepFault.Memory →
            ToldAfter (bodies self.old) (bodies self.new) BodiesStay }
        ensures failed { IsErrOf result KeepFault.Failed →
            ToldAfter (bodies self.old) (bodies self.new) (MayAppend body.now) }
        ensures ready { IsTrue (ready self.new) }
        ensures name { opened_as self.new ≡ opened_as self.old }
        ensures never_falls { faults self.old ≤ faults self.new }
        ensures cause { IsErrOf result KeepFault.Failed →
            Rose (faults self.old) (faults self.new) };

    /// Puts another body at that place. `Memory` leaves the bodies; after `Failed` they are the old
    /// ones, or those with that one changed. Where they aren't told, a place that isn't there is a
    /// counted failure.
    fn replace(&mut self, alloc: Global, place: u32, body: &[u8]) -> Result<(), KeepFault>
        requires ready { IsTrue (ready self.old) }
        requires place { ForSome (bodies self.old) (HasPlace place) }
        ensures ok { OnOk result
            (ToldAfter (bodies self.old) (bodies self.new) (BodyReplaced place body.now)) }
        ensures memory { IsErrOf result KeepFault.Memory →
            ToldAfter (bodies self.old) (bodies self.new) BodiesStay }
        ensures failed { IsErrOf result KeepFault.Failed →
            ToldAfter (bodies self.old) (bodies self.new) (MayReplace place body.now) }
        ensures ready { IsTrue (ready self.new) }
        ensures name { opened_as self.new ≡ opened_as self.old }
        ensures never_falls { faults self.old ≤ faults self.new }
        ensures cause { IsErrOf result KeepFault.Failed →
            Rose (faults self.old) (faults self.new) };
}
