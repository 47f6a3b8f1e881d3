//! The oceans that a sector crosses.

ghost use Rattle.std.specs.Prelude.{◌≡◌, ◌≤◌, ◌||◌, ◌&&◌, true, false};
ghost use Rattle.fare_trip.specs.Itinerary.{count, point};
ghost use Rattle.fare_rules.specs.Indicator.{area, ocean, is_atlantic, is_pacific, is_first_area};
ghost use Rattle.fare_rules.specs.Indicator.{crosses_atlantic, crosses_pacific, is_within_one, indicator_by};

use fare_codes::{Area, City, Indicator, Over};
use fare_tariff::Edition;
use fare_trip::Trip;

/// What some sectors cross and touch together.
#[derive(Clone, Copy)]
pub(crate) struct Crossings {
    pub(crate) atlantic: bool,
    pub(crate) pacific: bool,
    pub(crate) within_one: bool,
}

impl Crossings {
    /// What no sector crosses and touches.
    pub(crate) fn none() -> Crossings
        ensures { result ≡ record { atlantic = false; pacific = false; within_one = true } }
    {
        Crossings {
            atlantic: false,
            pacific: false,
            within_one: true,
        }
    }

    /// What a sector from an area to another crosses and touches.
    pub(crate) fn between(from: Option<Area>, to: Option<Area>, over: Over) -> Crossings
        ensures atlantic { result.atlantic ≡ is_atlantic (ocean from to over) }
        ensures pacific { result.pacific ≡ is_pacific (ocean from to over) }
        ensures within_one { result.within_one ≡ (is_first_area from && is_first_area to) }
    {
        let crossed = ocean(from, to, over);
        Crossings {
            atlantic: is_atlantic(crossed),
            pacific: is_pacific(crossed),
            within_one: is_first_area(from) && is_first_area(to),
        }
    }

    /// What the sector of a number crosses and touches.
    pub(crate) fn of(edition: &Edition, trip: &Trip, number: usize) -> Crossings
        requires from_one { 1 ≤ number }
        requires within { number ≤ count trip.now }
        ensures atlantic { result.atlantic ≡ crosses_atlantic edition.now trip.now number }
        ensures pacific { result.pacific ≡ crosses_pacific edition.now trip.now number }
        ensures within_one { result.within_one ≡ is_within_one edition.now trip.now number }
    {
        let from = area_at(edition, trip, number - 1);
        let to = area_at(edition, trip, number);
        Crossings::between(from, to, trip.sector(number).over)
    }

    /// What these sectors and some others cross and touch.
    pub(crate) fn and(self, others: Crossings) -> Crossings
        ensures { result ≡ record {
          atlantic = self.atlantic || others.atlantic;
          pacific = self.pacific || others.pacific;
          within_one = self.within_one && others.within_one;
        } }
    {
        Crossings {
            atlantic: self.atlantic || others.atlantic,
            pacific: self.pacific || others.pacific,
            within_one: self.within_one && others.within_one,
        }
    }

    /// The global indicator of the sectors.
    pub(crate) fn indicator(self) -> Indicator
        ensures { result ≡ indicator_by self.atlantic self.pacific self.within_one }
    {
        match (self.atlantic, self.pacific, self.within_one) {
            (true, true, _) => Indicator::AP,
            (true, false, _) => Indicator::AT,
            (false, true, _) => Indicator::PA,
            (false, false, true) => Indicator::WH,
            (false, false, false) => Indicator::EH,
        }
    }
}

/// The area of a city.
fn area(edition: &Edition, city: City) -> Option<Area>
    ensures { result ≡ area edition.now city }
{
    match edition.city(city) {
        None => None,
        Some(filed) => Some(filed.area),
    }
}

/// The ocean between two areas, by the mark of the sector that crosses it.
fn ocean(from: Option<Area>, to: Option<Area>, over: Over) -> Option<Indicator>
    ensures { result ≡ ocean from to over }
{
    match (from, to, over) {
        (Some(Area::One), Some(Area::Two), _) => Some(Indicator::AT),
        (Some(Area::Two), Some(Area::One), _) => Some(Indicator::AT),
        (Some(Area::One), Some(Area::Three), Over::AT) => Some(Indicator::AT),
        (Some(Area::Three), Some(Area::One), Over::AT) => Some(Indicator::AT),
        (Some(Area::One), Some(Area::Three), _) => Some(Indicator::PA),
        (Some(Area::Three), Some(Area::One), _) => Some(Indicator::PA),
        _ => None,
    }
}

/// Whether a crossing is that of the Atlantic.
fn is_atlantic(crossed: Option<Indicator>) -> bool
    ensures { result ≡ is_atlantic crossed }
{
    matches!(crossed, Some(Indicator::AT))
}

/// Whether a crossing is that of the Pacific.
fn is_pacific(crossed: Option<Indicator>) -> bool
    ensures { result ≡ is_pacific crossed }
{
    matches!(crossed, Some(Indicator::PA))
}

/// Whether an area is area 1.
fn is_first_area(area: Option<Area>) -> bool
    ensures { result ≡ is_first_area area }
{
    matches!(area, Some(Area::One))
}

/// The area of the city of a point.
pub(crate) fn area_at(edition: &Edition, trip: &Trip, i: usize) -> Option<Area>
    requires within { i ≤ count trip.now }
    ensures { result ≡ area edition.now (point trip.now i) }
{
    area(edition, trip.point(i))
}
