//! A ceiling: a price above which nothing is wanted, so that no part is that makes its unit's circle minimum greater.

ghost use Rattle.std.specs.Prelude.{◌≡◌, ◌<◌, ◌≤◌, IfSome, Some};
ghost use Rattle.fare_trip.specs.Itinerary.{count};
ghost use Rattle.fare_legs.specs.Ceiling.{HasOneIndicator, IsCeiling, is_too_dear};

use fare_codes::Indicator;
use fare_component::Table;
use fare_points::{indicator, reference};

/// A price above which nothing is wanted, where all sectors of a trip have one indicator: so has each circle.
#[derive(Clone, Copy)]
pub struct Ceiling {
    /// The price, in NUC hundredths.
    pub price: u64,
    /// The indicator of each sector.
    pub indicator: Indicator,
}

/// The ceiling at a price; nothing where the sectors have different indicators.
pub(crate) fn ceiling_at(table: &Table, price: u64) -> Option<Ceiling>
    ensures { IfSome result (λ ceiling. (ceiling.price ≡ price)
        × HasOneIndicator table.now.edition table.now.trip ceiling.indicator) }
{
    let (edition, trip) = (table.edition(), table.trip());
    let sectors = trip.count();
    let first = indicator(edition, trip, 0, 1);
    for i in 1..sectors {
        if !indicator(edition, trip, i, i + 1).is(first) {
            return None;
        }
    }
    Some(Ceiling {
        price,
        indicator: first,
    })
}

/// Whether a fare on a part from a point to another makes the circle minimum of a unit that closes at a third greater
/// than a ceiling: twice its reference from there to where the part ends is above the price.
pub fn is_too_dear(
    table: &Table,
    ceiling: Ceiling,
    a: usize,
    home: usize,
    b: usize,
    number: u32,
) -> bool
    requires rises { a < b }
    requires within { b ≤ count table.now.trip }
    requires home { home ≤ count table.now.trip }
    ensures { result ≡ is_too_dear table.now.edition table.now.trip ceiling a home b number }
{
    let (edition, trip) = (table.edition(), table.trip());
    let sectors = trip.count();
    prove!(b <= sectors);
    let Some(fare) = edition.fare_at(number) else {
        return false;
    };
    let on = trip.sector(a + 1).day;
    match reference(
        edition,
        trip.point(home),
        trip.point(b),
        ceiling.indicator,
        fare,
        on,
    ) {
        None => false,
        Some(amount) => ceiling.price < 2 * amount.hundredths(),
    }
}

/// The ceiling at a price, where there is one and the sectors have one indicator.
pub fn ceiling_of(table: &Table, price: Option<u64>) -> Option<Ceiling>
    ensures value { IfSome result (λ ceiling. price ≡ Some ceiling.price) }
    ensures ceiling { IsCeiling table.now.edition table.now.trip result }
{
    match price {
        None => None,
        Some(price) => ceiling_at(table, price),
    }
}
