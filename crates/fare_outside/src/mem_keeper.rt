ghost use Rattle.std.specs.Prelude.{◌≡◌, ◌≤◌, ◌↔◌, None, Some, length, is_ok, is_some, if◌then◌else◌, IfOk, OnOk};
ghost use Rattle.std.specs.Prelude.{IsErr, IsErrOf};
ghost use Rattle.std.specs.Prelude.{IsSome, IsSomeAnd};
ghost use Rattle.std.specs.Option.{ForSome};
ghost use Rattle.fare_ports.specs.Cause.{Rose};
ghost use Rattle.fare_outside.specs.Failures.{next_failure, answer_or};
ghost use Rattle.fare_outside.specs.Objects.{called, Kept};
ghost use Rattle.fare_ports.specs.Keeper.{BodiesStay, BodyAppended, BodyReplaced, HasPlace, body_at, first_name};

use crate::fail_at::FailAt;
use crate::failures::Failures;
use fare_ports::{Bodies, FirstName, KeepFault, Keeper, raised};
use std::alloc::Global;
use std::marker::Model;

/// A keeper in memory whose listed calls fail: `open`, `len`, `load`, `append` and `replace` are numbered together.
#[derive(Drop)]
pub struct MemKeeper {
    bodies: Bodies,
    name: FirstName,
    failures: Failures,
    faults: u64,
}

impl Model for MemKeeper {
    ghost use Rattle.fare_outside.specs.Objects.{ListedKeeper};

    ghost Value = { ListedKeeper };

    ghost view = { λ k. record {
      bodies = k.bodies;
      name = k.name;
      failures = k.failures;
      faults = k.faults;
    } };
}

impl MemKeeper {
    /// A keeper of these bodies, not opened yet, whose calls fail as they are listed.
    pub fn new(bodies: Bodies, fail: Vec<FailAt>) -> MemKeeper
        ensures { result ≡ record {
          bodies = bodies;
          name = None;
          failures = record { fail = fail.items; made = 0 };
          faults = 0;
        } }
    {
        MemKeeper {
            bodies,
            name: FirstName::new(),
            failures: Failures::new(fail),
            faults: 0,
        }
    }

    /// The bodies that it keeps.
    pub fn kept(&self) -> &Bodies
        ensures { result.now ≡ self.now.bodies }
    {
        &self.bodies
    }
}

impl MemKeeper {
    /// Makes the next call, and counts its failure, where it is listed.
    fn next(&mut self) -> Option<FailAt>
        ensures fails { result ≡ next_failure self.old.failures }
        ensures made { self.new ≡ called self.old }
        ensures never_falls { self.old.faults ≤ self.new.faults }
        ensures cause { IsSome result → Rose self.old.faults self.new.faults }
    {
        let failure = self.failures.next();
        if failure.is_some() {
            self.faults = raised(self.faults);
        }
        failure
    }
}

impl Keeper for MemKeeper {
    ghost bodies = { λ keeper. Some keeper.bodies };

    ghost faults = { λ keeper. keeper.faults };

    ghost ready = { λ keeper. is_some keeper.name };

    ghost opened_as = { λ keeper. keeper.name };

    fn open(&mut self, alloc: Global, name: &str) -> Result<(), KeepFault>
        ensures listed { IsErrOf result KeepFault.Failed ↔ IsSome (next_failure self.old.failures) }
        ensures made { self.new ≡ record (called self.old) {
          name = (if is_ok result then first_name self.old.name name.now else self.old.name);
        } }
        ensures never_falls { self.old.faults ≤ self.new.faults }
        ensures cause { IsErrOf result KeepFault.Failed → Rose self.old.faults self.new.faults }
    {
        match self.next() {
            Some(_) => Err(KeepFault::Failed),
            None => Ok(self.name.keep(alloc, name)?),
        }
    }

    fn len(&mut self, _alloc: Global) -> Result<u64, KeepFault>
        requires { IsSome self.old.name }
        ensures answer { result ≡ answer_or (next_failure self.old.failures) (length self.old.bodies) }
        ensures made { self.new ≡ called self.old }
        ensures never_falls { self.old.faults ≤ self.new.faults }
        ensures cause { IsErrOf result KeepFault.Failed → Rose self.old.faults self.new.faults }
    {
        match self.next() {
            Some(_) => Err(KeepFault::Failed),
            None => Ok(self.bodies.len() as u64),
        }
    }

    fn load(&mut self, alloc: Global, place: u32) -> Result<Vec<u8>, KeepFault>
        requires ready { IsSome self.old.name }
        requires place { ForSome (Some self.old.bodies) (HasPlace place) }
        ensures body { IfOk result (λ body. body_at place self.old.bodies ≡ Some body.items) }
        ensures listed { IsErrOf result KeepFault.Failed ↔ IsSome (next_failure self.old.failures) }
        ensures made { self.new ≡ called self.old }
        ensures never_falls { self.old.faults ≤ self.new.faults }
        ensures cause { IsErrOf result KeepFault.Failed → Rose self.old.faults self.new.faults }
    {
        let index = place as usize - 1;
        if self.next().is_some() {
            return Err(KeepFault::Failed);
        }
        let body = self.bodies.get(index).unwrap();
        Ok(Vec::from_slice(alloc, body)?)
    }

    fn append(&mut self, _alloc: Global, body: &[u8]) -> Result<(), KeepFault>
        requires { IsSome self.old.name }
        ensures ok { OnOk result (BodyAppended body.now self.old.bodies self.new.bodies) }
        ensures memory { IsErrOf result KeepFault.Memory → BodiesStay self.old.bodies self.new.bodies }
        ensures failed { IsErrOf result KeepFault.Failed → IsSomeAnd (next_failure self.old.failures) (λ failure.
            Kept failure (BodyAppended body.now) self.old.bodies self.new.bodies) }
        ensures listed { IsSome (next_failure self.old.failures) → IsErr result }
        ensures made { self.new ≡ record (called self.old) { bodies = self.new.bodies } }
        ensures never_falls { self.old.faults ≤ self.new.faults }
        ensures cause { IsErrOf result KeepFault.Failed → Rose self.old.faults self.new.faults }
    {
        match self.next() {
            Some(failure) => {
                if failure.kept {
                    self.bodies.push(body)?;
                }
                Err(KeepFault::Failed)
            }
            None => Ok(self.bodies.push(body)?),
        }
    }

    fn replace(&mut self, _alloc: Global, place: u32, body: &[u8]) -> Result<(), KeepFault>
        requires ready { IsSome self.old.name }
        requires place { ForSome (Some self.old.bodies) (HasPlace place) }
        ensures ok { OnOk result (BodyReplaced place body.now self.old.bodies self.new.bodies) }
        ensures memory { IsErrOf result KeepFault.Memory → BodiesStay self.old.bodies self.new.bodies }
        ensures failed { IsErrOf result KeepFault.Failed → IsSomeAnd (next_failure self.old.failures) (λ failure.
            Kept failure (BodyReplaced place body.now) self.old.bodies self.new.bodies) }
        ensures listed { IsSome (next_failure self.old.failures) → IsErr result }
        ensures made { self.new ≡ record (called self.old) { bodies = self.new.bodies } }
        ensures never_falls { self.old.faults ≤ self.new.faults }
        ensures cause { IsErrOf result KeepFault.Failed → Rose self.old.faults self.new.faults }
    {
        let index = place as usize - 1;
        match self.next() {
            Some(failure) => {
                if failure.kept {
                    self.bodies.set(index, body)?;
                }
                Err(KeepFault::Failed)
            }
            None => Ok(self.bodies.set(index, body)?),
        }
    }
}
