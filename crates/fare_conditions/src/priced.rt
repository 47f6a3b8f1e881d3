ghost use Rattle.std.specs.Prelude.{◌≡◌, ◌<◌, ◌≤◌};
ghost use Rattle.fare_trip.specs.Itinerary.{count};
ghost use Rattle.fare_rules.specs.Indicator.{indicator};
ghost use Rattle.fare_mileage.specs.Miles.{AreInRange, AreMiles};
ghost use Rattle.std.proofs.Props.{props};
ghost use Rattle.fare_conditions.specs.Shared.{AreIndicators};

use crate::indicators::Indicators;
use fare_codes::Indicator;
use fare_tariff::Edition;
use fare_trip::Trip;

/// A trip that is priced in an edition, with the indicators of its spans and the mileages of its sectors.
#[derive(Clone, Copy)]
pub struct Priced<'a> {
    pub edition: &'a Edition,
    pub trip: &'a Trip,
    pub indicators: &'a Indicators,
    ghost rows: { AreIndicators edition.now trip.now indicators.now.rows },
    ghost miles: { AreMiles edition.now trip.now 0 (count trip.now) indicators.now.miles } by { Prim.hlevel props },
    ghost in_range: { AreInRange indicators.now.miles } by { Prim.hlevel props },
}

impl<'a> Priced<'a> {
    /// The indicator of a span.
    pub fn indicator(&self, i: usize, j: usize) -> Indicator
        requires rises { i < j }
        requires within { j ≤ count self.now.trip.now }
        ensures { result ≡ indicator self.now.edition.now self.now.trip.now i j }
    {
        let count = self.trip.count();
        prove!(j <= count);
        self.indicators.rows[i][j]
    }
}
