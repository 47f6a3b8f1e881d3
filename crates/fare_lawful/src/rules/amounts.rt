//! Which parts have an amount: a fare has one just where it meets each rule that asks of a part alone.

ghost use Rattle.std.specs.Prelude.{◌≡◌, ◌≤◌, length, find};
ghost use Rattle.fare_rules.specs.Construction.{places};
ghost use Rattle.fare_lawful.specs.Advance.{Advances};
ghost use Rattle.fare_lawful.specs.Breaks.{is_unpriced};
ghost use Rattle.fare_lawful.specs.Places.{IsPlace};

use crate::limits::MOST_PARTS;
use crate::parts::direction::is_back;
use crate::parts::places::{end_of, part_at, start_of};
use crate::rules::first::first_that;
use fare_component::Table;
use fare_rules::Part;

/// Whether a part has no amount in its direction.
fn is_unpriced(table: &Table, parts: &[Part], k: usize) -> bool
    requires few { length parts.now ≤ MOST_PARTS }
    requires advances { Advances table.now.trip parts.now }
    requires place { IsPlace parts.now k }
    ensures { result ≡ is_unpriced table.now.edition table.now.trip parts.now k }
{
    let trip = table.trip();
    let a = start_of(trip, parts, k);
    let b = end_of(parts, k);
    let back = is_back(table.edition(), trip, parts, k);
    table.amount(a, b, part_at(parts, k).fare, back).is_none()
}

/// The first part that has no amount in its direction.
pub(crate) fn unpriced(table: &Table, parts: &[Part]) -> Option<u8>
    requires few { length parts.now ≤ MOST_PARTS }
    requires advances { Advances table.now.trip parts.now }
    ensures { result ≡ find (is_unpriced table.now.edition table.now.trip parts.now) (places parts.now) }
{
    first_that(parts.len(), |k| is_unpriced(table, parts, k))
}
