//! Ending: whether a unit of first parts may end as it stands, or must have more parts.

ghost use Rattle.std.specs.Prelude.{◌≡◌, ◌<◌, ◌≤◌, length, is_some};
ghost use Rattle.fare_trip.specs.Itinerary.{count};
ghost use Rattle.fare_rules.specs.ComponentAmount.{component_amount};
ghost use Rattle.fare_rules.specs.Construction.{last_of, own};
ghost use Rattle.fare_lawful.specs.Advance.{Advances};
ghost use Rattle.fare_floors.specs.Ending.{is_priced, is_priced_back, needs_more};

use crate::places::last_place;
use crate::stays::is_outside;
use fare_component::{Entry, Table};
use fare_rules::Part;
use fare_units::{MOST_PARTS, is_shut_unit, must_go_on, part_at, start_of};

/// Whether an entry has an amount, priced back or not.
fn is_priced(entry: &Entry, back: bool) -> bool
    ensures { result ≡ is_priced entry.now back }
{
    if back {
        entry.back.is_some()
    } else {
        entry.out.is_some()
    }
}

/// Whether a fare has an amount for a span, priced back or not.
pub(crate) fn has_amount(table: &Table, a: usize, b: usize, fare: u32, back: bool) -> bool
    requires rises { a < b }
    requires within { b ≤ count table.now.trip }
    ensures { result ≡ is_some (component_amount table.now.edition table.now.trip a b fare back) }
{
    for entry in table.entries(a, b) {
        if entry.fare == fare {
            return is_priced(entry, back);
        }
    }
    false
}

/// Whether a place has a part, and this has an amount priced back.
fn is_priced_back(table: &Table, parts: &[Part], k: usize) -> bool
    requires advances { Advances table.now.trip parts.now }
    requires within { k ≤ length parts.now }
    ensures { result ≡ is_priced_back table.now.edition table.now.trip parts.now k }
{
    if k == 0 {
        return false;
    }
    let part = part_at(parts, k);
    has_amount(
        table,
        start_of(table.trip(), parts, k),
        part.end as usize,
        part.fare,
        true,
    )
}

/// Whether a unit of first parts must have more parts: it is not shut, and is no open jaw as it stands, or one whose
/// last part has no amount back, or whose stay one of its rules doesn't allow.
pub(crate) fn needs_more(table: &Table, parts: &[Part], unit: usize) -> bool
    requires few { length parts.now ≤ MOST_PARTS }
    requires advances { Advances table.now.trip parts.now }
    ensures { result ≡ needs_more table.now.edition table.now.trip parts.now (own parts.now unit) }
{
    let (edition, trip) = (table.edition(), table.trip());
    must_go_on(edition, trip, parts, unit)
        || !is_shut_unit(edition, trip, parts, unit)
            && (!is_priced_back(table, parts, last_place(parts, unit))
                || is_outside(table, parts, unit))
}
