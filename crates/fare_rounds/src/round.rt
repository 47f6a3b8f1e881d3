ghost use Rattle.std.specs.Prelude.{◌≡◌, []};

use crate::Entry;
use arrayvec::ArrayVec;
use fare_ports::MOST_HELD;
use std::marker::Model;

/// The connections of a round that the door holds, with what each one brought, and the number of those that were cut
/// off.
#[derive(Drop)]
pub struct Round {
    pub(crate) entries: ArrayVec<Entry, MOST_HELD>,
    pub(crate) cut: u32,
}

impl Model for Round {
    ghost use Rattle.std.specs.Prelude.{◌+◌, ◌≤◌, length};
    ghost use Rattle.fare_ports.specs.declared.door.TheConstants.{MOST_HELD};
    ghost use Rattle.fare_rounds.specs.Entries.{Row};

    ghost Value = { Row };

    ghost view = { λ r. record { entries = r.entries.items; cut = r.cut } };

    ghost invariant = { λ r. length r.entries.items + r.cut ≤ MOST_HELD };
}

impl Round {
    /// A round with no connection.
    pub(crate) fn new() -> Round
        ensures { result ≡ record { entries = []; cut = 0 } }
    {
        Round {
            entries: ArrayVec::new(),
            cut: 0,
        }
    }
}
