//! The sectors of a trip from a point on, sector by sector.

ghost use Rattle.std.specs.Prelude.{◌≡◌, ◌+◌, ◌<◌, ◌≤◌};
ghost use Rattle.fare_trip.specs.Itinerary.{count};
ghost use Rattle.fare_rules.specs.Indicator.{indicator};
ghost use Rattle.fare_points.specs.Stretch.{IsStretch};

use crate::crossings::{Crossings, area_at};
use fare_codes::{Area, Indicator};
use fare_tariff::Edition;
use fare_trip::Trip;

/// The sectors from a point to another: what they cross and touch, and the area of the point that they reach.
#[derive(Clone, Copy)]
pub(crate) struct Stretch {
    pub(crate) met: Crossings,
    pub(crate) area: Option<Area>,
}

impl Stretch {
    /// No sector, at a point.
    pub(crate) fn at(edition: &Edition, trip: &Trip, a: usize) -> Stretch
        requires within { a ≤ count trip.now }
        ensures { IsStretch edition.now trip.now a a result }
    {
        Stretch {
            met: Crossings::none(),
            area: area_at(edition, trip, a),
        }
    }

    /// The sectors from a point to one past that which is reached.
    pub(crate) fn next(self, edition: &Edition, trip: &Trip, a: usize, b: usize) -> Stretch
        requires stretch { IsStretch edition.now trip.now a b self }
        requires rises { a ≤ b }
        requires within { b < count trip.now }
        ensures { IsStretch edition.now trip.now a (b + 1) result }
    {
        let _a = a;
        let count = trip.count();
        prove!(b < count);
        let area = area_at(edition, trip, b + 1);
        let more = Crossings::between(self.area, area, trip.sector(b + 1).over);
        Stretch {
            met: self.met.and(more),
            area,
        }
    }

    /// The global indicator of the sectors.
    #[tactic(auto, unfolding(fare_rules::specs::Indicator::indicator_of))]
    pub(crate) fn indicator(self, edition: &Edition, trip: &Trip, a: usize, b: usize) -> Indicator
        requires stretch { IsStretch edition.now trip.now a b self }
        ensures { result ≡ indicator edition.now trip.now a b }
    {
        let _edition = edition;
        let _trip = trip;
        let _ends = (a, b);
        self.met.indicator()
    }
}
