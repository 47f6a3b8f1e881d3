ghost use Rattle.std.specs.Prelude.{◌≡◌, None, Ok, Some, length, is_some, IfErr, IsSome, OnOk};
ghost use Rattle.fare_ports.specs.declared.keeper.KeepFault.TheVariants.{Memory};
ghost use Rattle.fare_ports.specs.Keeper.{first_name};

use fare_ports::{Bodies, FirstName, KeepFault, Keeper};
use std::alloc::Global;
use std::marker::Model;

/// A keeper in memory that never fails but for want of memory.
#[derive(Drop)]
pub struct PlainKeeper {
    bodies: Bodies,
    name: FirstName,
}

impl Model for PlainKeeper {
    ghost use Rattle.fare_outside.specs.Objects.{KeeperState};

    ghost Value = { KeeperState };

    ghost view = { λ k. record { bodies = k.bodies; name = k.name } };
}

impl PlainKeeper {
    /// A keeper of these bodies, not opened yet.
    pub fn new(bodies: Bodies) -> PlainKeeper
        ensures { result ≡ record { bodies = bodies; name = None } }
    {
        PlainKeeper {
            bodies,
            name: FirstName::new(),
        }
    }

    /// The bodies that it keeps.
    pub fn kept(&self) -> &Bodies
        ensures { result.now ≡ self.now.bodies }
    {
        &self.bodies
    }
}

impl Keeper for PlainKeeper {
    ghost bodies = { λ keeper. Some keeper.bodies };

    ghost faults = { λ _. 0 };

    ghost ready = { λ keeper. is_some keeper.name };

    ghost opened_as = { λ keeper. keeper.name };

    fn open(&mut self, alloc: Global, name: &str) -> Result<(), KeepFault>
        ensures ok { OnOk result (self.new ≡ record self.old { name = first_name self.old.name name.now }) }
        ensures err { IfErr result (λ fault. (fault ≡ Memory) × (self.new ≡ self.old)) }
    {
        Ok(self.name.keep(alloc, name)?)
    }

    fn len(&mut self, _alloc: Global) -> Result<u64, KeepFault>
        requires { IsSome self.old.name }
        ensures count { result ≡ Ok (length self.old.bodies) }
        ensures same { self.new ≡ self.old }
    {
        Ok(self.bodies.len() as u64)
    }

    fn load(&mut self, alloc: Global, place: u32) -> Result<Vec<u8>, KeepFault> {
        let body = self.bodies.get(place as usize - 1).unwrap();
        Ok(Vec::from_slice(alloc, body)?)
    }

    fn append(&mut self, _alloc: Global, body: &[u8]) -> Result<(), KeepFault> {
        Ok(self.bodies.push(body)?)
    }

    fn replace(&mut self, _alloc: Global, place: u32, body: &[u8]) -> Result<(), KeepFault> {
        Ok(self.bodies.set(place as usize - 1, body)?)
    }
}
