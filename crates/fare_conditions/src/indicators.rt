ghost use Rattle.fare_trip.specs.Itinerary.{count};
ghost use Rattle.fare_mileage.specs.Miles.{AreInRange, AreMiles};
ghost use Rattle.fare_conditions.specs.Shared.{AreIndicators};

use fare_codes::Indicator;
use fare_mileage::miles_between;
use fare_points::indicators_from;
use fare_rules::MOST_POINTS;
use fare_tariff::Edition;
use fare_trip::Trip;

/// The global indicators of all spans of a trip, by the points where they begin and end, and the ticketed point
/// mileages of its sectors, by their numbers.
#[derive(Drop)]
pub struct Indicators {
    pub rows: [[Indicator; MOST_POINTS]; MOST_POINTS],
    pub miles: [Option<u32>; MOST_POINTS],
}

/// The indicators of all spans and the mileages of all sectors.
pub fn all_indicators(edition: &Edition, trip: &Trip) -> Indicators
    ensures indicators { AreIndicators edition.now trip.now result.rows }
    ensures miles { AreMiles edition.now trip.now 0 (count trip.now) result.miles }
    ensures in_range { AreInRange result.miles }
{
    let count = trip.count();
    let mut rows = [[Indicator::WH; MOST_POINTS]; MOST_POINTS];
    for i in 0..count {
        rows[i] = indicators_from(edition, trip, i, count);
    }
    let miles = miles_between(edition, trip, 0, count);
    Indicators { rows, miles }
}
