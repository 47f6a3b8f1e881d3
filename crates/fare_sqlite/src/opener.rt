ghost use Rattle.std.specs.Prelude.{ℕ, List, Option, IfOk};
ghost use Rattle.sqlite.specs.Held.{state};
ghost use Rattle.fare_ports.specs.Keeper.{BodiesStay, WhereTold};
ghost use Rattle.fare_sqlite.specs.Kept.{kept};

use fare_ports::KeepFault;
use sqlite::{Alter, Connection};

/// What opens the database of a name, and opens it once more where a connection was shut.
pub trait Opener<A: Alter>: Drop {
    /// The bodies in the database as it is found, where they are told.
    ghost bodies: { Option (List (List ℕ)) };

    /// Opens the database of that name, and makes it where there is none.
    fn open(&mut self, name: &str) -> Result<Connection<A>, KeepFault>
        ensures found { IfOk result (λ conn. WhereTold bodies (kept (state A.Store conn)) BodiesStay) };
}
