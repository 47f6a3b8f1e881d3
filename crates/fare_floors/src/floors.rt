//! What first parts cost at least, with all that may follow.

ghost use Rattle.std.specs.Prelude.{◌≡◌, ℕ, ◌+◌, IfSome, length, option_map};
ghost use Rattle.fare_rules.specs.Construction.{end_of};
ghost use Rattle.fare_rules.specs.UnitPrice.{price};
ghost use Rattle.fare_bounds.specs.Covers.{AreRests, rest_at};
ghost use Rattle.fare_legs.specs.Costs.{IsUpTo};
ghost use Rattle.fare_floors.specs.Floors.{IsMadeWith, IsFloorAnswer, IsNoLess, HasNoOpenUnit};

use crate::costs::units_floor;
use crate::partial::Partial;
use fare_bounds::Rest;
use fare_component::Table;
use fare_homing::Ceiling;

/// A number that is at most the price of every completion of some first parts; nothing only where there is none.
pub fn floor_of(table: &Table, rest: &Rest, partial: &Partial) -> Option<u64>
    requires rest { AreRests table.now.edition table.now.trip rest.now }
    requires made { IsMadeWith table.now partial.now }
    ensures floor { IsFloorAnswer table.now.edition table.now.trip partial.now result }

    // Where no unit is open it is no less than the price of the units and the least rest behind them.
    ensures shut { HasNoOpenUnit table.now.edition table.now.trip partial.now
        → IsNoLess (option_map (λ least. price table.now.edition table.now.trip partial.now + least)
        (rest_at rest.now (end_of partial.now (length partial.now)))) result }
{
    let trip = table.trip();
    trip.law();
    let spent = units_floor(table, partial.parts(), partial.greatest_unit());
    match rest.from_point(partial.end()) {
        None => None,
        Some(least) => Some(spent + least),
    }
}

/// A floor of what costs no more than a ceiling as one of all: at most the number above the ceiling.
pub(crate) fn lowered_to(ceiling: Option<Ceiling>, floor: Option<u64>) -> Option<u64>
    ensures kept { (most : ℕ) → IsUpTo most floor → IsUpTo most result }
    ensures above { IfSome ceiling (λ known. IsUpTo (known.price + 1) result) }
{
    let Some(ceiling) = ceiling else {
        return floor;
    };
    match floor {
        Some(floor) if floor <= ceiling.price => Some(floor),
        _ => Some(ceiling.price.saturating_add(1)),
    }
}
