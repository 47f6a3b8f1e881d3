//! Dear parts: first parts whose last one makes the circle minimum of its unit greater than a ceiling, so that nothing
//! that begins with them is under it.

ghost use Rattle.std.specs.Prelude.{◌≡◌, ◌≤◌, length};
ghost use Rattle.fare_floors.specs.Dear.{is_dear_between, is_over};
ghost use Rattle.fare_floors.specs.Floors.{IsMadeWith};
ghost use Rattle.fare_legs.specs.declared.ceiling.Ceiling.{Ceiling};

use crate::ending::needs_more;
use crate::joining::part_count;
use crate::partial::Partial;
use crate::places::first_place;
use fare_component::Table;
use fare_homing::{Ceiling, is_too_dear};
use fare_units::{part_at, start_of};

/// Whether the last of some parts stands between the first and the last of its unit, and is too dear for a ceiling there.
fn is_dear_between(table: &Table, ceiling: Ceiling, partial: &Partial) -> bool
    requires made { IsMadeWith table.now partial.now }
    requires some { 1 ≤ length partial.now }
    ensures { result ≡ is_dear_between table.now.edition table.now.trip ceiling partial.now (length partial.now) }
{
    let trip = table.trip();
    let _sectors = trip.count();
    let parts = partial.parts();
    let part = part_at(parts, parts.len());
    let unit = part.unit as usize;
    let start = start_of(trip, parts, parts.len());
    let home = start_of(trip, parts, first_place(parts, unit));
    part_count(parts, unit) > 1
        && needs_more(table, parts, unit)
        && is_too_dear(table, ceiling, start, home, part.end as usize, part.fare)
}

/// Whether the last of some parts makes the circle minimum of its unit greater than the ceiling, where there is one.
pub(crate) fn is_over(table: &Table, ceiling: Option<Ceiling>, partial: &Partial) -> bool
    requires made { IsMadeWith table.now partial.now }
    ensures { result ≡ is_over table.now.edition table.now.trip ceiling partial.now }
{
    match ceiling {
        None => false,
        Some(ceiling) => { !partial.parts().is_empty() && is_dear_between(table, ceiling, partial) }
    }
}
