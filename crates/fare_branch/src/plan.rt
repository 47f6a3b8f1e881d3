//! What the searches of all shares stand on, and what they begin with.

ghost use Rattle.std.specs.Prelude.{◌≤◌};
ghost use Rattle.fare_branch.specs.LeastPrice.{least_price};
ghost use Rattle.fare_homing.specs.Rows.{AreHomingsOf};

use crate::bound::Bound;
use crate::opening::opened;
use crate::own_bound::OwnBound;
use crate::pieces::{Piece, choices};
use fare_component::Table;
use fare_homing::Homing;

/// What the searches of all shares stand on.
#[derive(Clone, Copy)]
pub struct Plan<'a> {
    /// The table of the trip.
    pub table: &'a Table<'a>,
    /// What is behind each of its points at least.
    pub homing: &'a Homing,
    /// Pieces of the first-part choices.
    pub pieces: &'a [Piece],
    /// A price that is known, or `NO_PRICE`.
    pub known: u64,
}

/// The price that dives into all first-part choices come to, `NO_PRICE` where they find nothing. What is behind each
/// point is then known for a search that begins with it.
pub fn opening_price(table: &Table, homing: &mut Homing) -> u64
    requires { AreHomingsOf table.now.edition table.now.trip homing.old }
    ensures homing { AreHomingsOf table.now.edition table.now.trip homing.new }
    ensures price { least_price table.now.edition table.now.trip ≤ result }
{
    let mut bound = OwnBound::new(table.edition(), table.trip());
    let all = Piece {
        first: 0,
        past: choices(table),
    };
    let _first = opened(table, homing, all, &mut bound);
    bound.seen()
}
