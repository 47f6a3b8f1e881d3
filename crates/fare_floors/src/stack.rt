//! What is known of first parts by their units: what each costs at least, what is behind each point over them, and a
//! floor.

ghost use Rattle.std.specs.Prelude.{◌≡◌, ◌≤◌, length, None, option_map, if◌then◌else◌};
ghost use Rattle.fare_floors.specs.Costs.{AreFloorsBefore, AreUnitFloors};
ghost use Rattle.fare_floors.specs.Floors.{IsMadeWith};
ghost use Rattle.fare_floors.specs.Stack.{IsStack};
ghost use Rattle.fare_legs.specs.Floor.{capped_sum};
ghost use Rattle.fare_homing.specs.Rows.{AreHomingsOf};

use crate::costs::{MOST_UNITS, floors_after, floors_of, spent_on};
use crate::dear::is_over;
use crate::floors::lowered_to;
use crate::partial::Partial;
use crate::stacking::over_units;
use fare_component::Table;
use fare_homing::{Floor, Homing, number_at, paid_with};
use fare_rules::MOST_POINTS;

/// What is known of first parts by their units.
#[derive(Drop)]
pub struct Stack {
    /// What each unit costs at least, by its number, in NUC hundredths.
    pub floors: [u64; MOST_UNITS],
    /// What the first parts cost at least, in NUC hundredths.
    pub spent: u64,
    /// What is behind each point at least over the units up to each number.
    pub over: [[Floor; MOST_POINTS]; MOST_UNITS],
    /// A number that is at most the price of every completion, in NUC hundredths; nothing only where there is none.
    pub floor: Option<u64>,
}

/// What was paid with what is behind; nothing where all is beyond the ceiling.
fn floor_unless(beyond: bool, paid: u64, behind: Floor) -> Option<u64>
    ensures { result ≡ (if beyond then None else option_map (capped_sum paid) behind) }
{
    if beyond {
        return None;
    }
    paid_with(paid, behind)
}

/// What is known of first parts by what each of their units costs at least.
fn stack_with(table: &Table, homing: &Homing, partial: &Partial, floors: [u64; MOST_UNITS]) -> Stack
    requires homing { AreHomingsOf table.now.edition table.now.trip homing.now }
    requires made { IsMadeWith table.now partial.now }
    requires floors { AreUnitFloors table.now.edition table.now.trip partial.now floors }
    ensures { IsStack table.now homing.now partial.now result }
{
    let _sectors = table.trip().count();
    let greatest = partial.greatest_unit();
    let spent = spent_on(&floors, greatest);
    let over = over_units(table, homing, partial);
    let behind = number_at(&over[greatest], partial.end());
    let beyond = is_over(table, homing.unit_ceiling, partial);
    let floor = lowered_to(homing.ceiling, floor_unless(beyond, spent, behind));
    Stack {
        floors,
        spent,
        over,
        floor,
    }
}

/// What is known of first parts by their units: what begins must end, so each open unit comes home, one inside the
/// other, and so does each that begins behind.
pub fn stack_of(table: &Table, homing: &Homing, partial: &Partial) -> Stack
    requires homing { AreHomingsOf table.now.edition table.now.trip homing.now }
    requires made { IsMadeWith table.now partial.now }
    ensures { IsStack table.now homing.now partial.now result }
{
    let _sectors = table.trip().count();
    let floors = floors_of(table, partial.parts());
    stack_with(table, homing, partial, floors)
}

/// The same by what is known of the parts without their last one: its unit alone is priced anew.
pub fn stack_after(
    table: &Table,
    homing: &Homing,
    partial: &Partial,
    before: &[u64; MOST_UNITS],
) -> Stack
    requires homing { AreHomingsOf table.now.edition table.now.trip homing.now }
    requires made { IsMadeWith table.now partial.now }
    requires before { AreFloorsBefore table.now.edition table.now.trip partial.now before.now }
    ensures { IsStack table.now homing.now partial.now result }
{
    let _sectors = table.trip().count();
    let floors = floors_after(table, partial.parts(), before);
    stack_with(table, homing, partial, floors)
}
