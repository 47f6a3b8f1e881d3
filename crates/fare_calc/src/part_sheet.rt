//! How a part of a construction is priced, as each of its texts tells it.

ghost use Rattle.std.specs.Prelude.{◌≡◌, ◌<◌, ◌≤◌, IfSome, length, option_map};
ghost use Rattle.fare_trip.specs.Itinerary.{count};
ghost use Rattle.fare_rules.specs.Base.{higher};
ghost use Rattle.fare_rules.specs.ComponentAmount.{component_amount};
ghost use Rattle.fare_rules.specs.Indicator.{indicator};
ghost use Rattle.fare_rules.specs.Mileage.{mileage};
ghost use Rattle.fare_rules.specs.UnitPrice.{hundredths_of};
ghost use Rattle.fare_units.specs.Advance.{Advances};
ghost use Rattle.fare_units.specs.Places.{IsPlace};
ghost use Rattle.fare_calc.specs.PartSheets.{gap_after, gap_before, in_fare_direction, sheet_of_part, sheet_with};

use fare_codes::{Cabin, Carrier, City, FareAmount, Indicator, Kind, Nuc, Season};
use fare_component::applicable;
use fare_mileage::{Mileage, mileage};
use fare_points::{higher, indicator};
use fare_rules::{MOST_AMOUNT, Part};
use fare_tariff::{Edition, FareRec};
use fare_trip::Trip;
use fare_units::{MOST_PARTS, is_back, part_at, start_of};

/// How a part of a construction is priced.
#[derive(Clone, Copy, Debug)]
pub struct PartSheet {
    /// Its number, from 1.
    pub place: u32,
    /// The city where it begins.
    pub from: City,
    /// The city where it ends.
    pub to: City,
    /// The number of the trip's point where it begins: its sectors are those from the next number to that of its end.
    pub start: u8,
    /// The number of the trip's point where it ends.
    pub end: u8,
    /// The city to which the surface sector before it leads, where there is one.
    pub gap: Option<City>,
    /// The number of its pricing unit.
    pub unit: u8,
    /// The record number of its fare.
    pub number: u32,
    /// Its fare.
    pub fare: FareRec,
    /// Whether it is priced back.
    pub back: bool,
    /// Its mileage.
    pub mileage: Mileage,
    /// The cities of its higher intermediate point in fare direction, with the base, where there is one.
    pub higher: Option<(City, City, Nuc)>,
    /// Its component amount.
    pub amount: Nuc,
}

/// A sheet that stands in room that is not yet used.
impl Default for PartSheet {
    fn default() -> PartSheet {
        PartSheet {
            place: 1,
            from: City::default(),
            to: City::default(),
            start: 0,
            end: 0,
            gap: None,
            unit: 1,
            number: 1,
            fare: no_fare(),
            back: false,
            mileage: Mileage::Direct,
            higher: None,
            amount: Nuc::new(0),
        }
    }
}

/// The fare of a sheet that stands in room that is not yet used.
fn no_fare() -> FareRec {
    FareRec {
        from: City::default(),
        to: City::default(),
        ind: Indicator::EH,
        carrier: Carrier::default(),
        class: Cabin::Y,
        kind: Kind::OW,
        rule: None,
        season: Season::whole_year(),
        amount: FareAmount::of(Nuc::new(0)),
    }
}

/// The city to which the surface sector that begins at a point leads, where there is one.
fn gap_after(trip: &Trip, e: usize) -> Option<City>
    requires { e ≤ 255 }
    ensures { result ≡ gap_after trip.now e }
{
    if e < trip.count() && trip.sector(e + 1).surface {
        return Some(trip.point(e + 1));
    }
    None
}

/// The city to which the surface sector before a part leads, where there is one.
fn gap_before(trip: &Trip, parts: &[Part], k: usize) -> Option<City>
    ensures { result ≡ gap_before trip.now parts.now k }
{
    if k <= 1 {
        return None;
    }
    gap_after(trip, part_at(parts, k - 1).end as usize)
}

/// The mileage of a span for the indicator of its sectors.
fn own_mileage(edition: &Edition, trip: &Trip, a: usize, b: usize) -> Mileage
    requires rises { a < b }
    requires ends { b ≤ count trip.now }
    ensures { result ≡ mileage edition.now trip.now a b (indicator edition.now trip.now a b) }
{
    let ind = indicator(edition, trip, a, b);
    mileage(edition, trip, a, b, ind)
}

/// Two points as a pair in fare direction, with the base.
fn in_fare_direction(trip: &Trip, back: bool, i: usize, j: usize, base: Nuc) -> (City, City, Nuc)
    requires first { i ≤ count trip.now }
    requires second { j ≤ count trip.now }
    ensures { result ≡ in_fare_direction trip.now back (i, j, base) }
{
    if back {
        (trip.point(j), trip.point(i), base)
    } else {
        (trip.point(i), trip.point(j), base)
    }
}

/// The higher intermediate point of a fare for a span, in fare direction.
fn higher_pair(
    edition: &Edition,
    trip: &Trip,
    a: usize,
    b: usize,
    fare: &FareRec,
    back: bool,
) -> Option<(City, City, Nuc)>
    requires rises { a < b }
    requires ends { b ≤ count trip.now }
    ensures { result ≡ option_map (in_fare_direction trip.now back) (higher edition.now trip.now a b fare.now back) }
{
    match higher(edition, trip, a, b, fare, back) {
        None => None,
        Some((i, j, base)) => Some(in_fare_direction(trip, back, i, j, base)),
    }
}

/// The component amount of a fare for a span, 0 where it has none.
fn amount_of(edition: &Edition, trip: &Trip, a: usize, b: usize, number: u32, back: bool) -> Nuc
    requires rises { a < b }
    requires ends { b ≤ count trip.now }
    ensures value { result ≡ hundredths_of (component_amount edition.now trip.now a b number back) }
    ensures bound { result ≤ MOST_AMOUNT }
{
    match applicable(edition, trip, a, b, number, back) {
        None => Nuc::new(0),
        Some(found) => found.amount,
    }
}

/// The sheet of a part with its fare.
#[tactic(auto, unfolding(crate::specs::PartSheets::sheet_with, fare_rules::specs::UnitPrice::part_amount))]
fn sheet_with(edition: &Edition, trip: &Trip, parts: &[Part], k: usize, fare: &FareRec) -> PartSheet
    requires few { length parts.now ≤ MOST_PARTS }
    requires advances { Advances trip.now parts.now }
    requires place { IsPlace parts.now k }
    ensures value { result ≡ sheet_with edition.now trip.now parts.now k fare.now }
    ensures bound { result.amount ≤ MOST_AMOUNT }
{
    let part = part_at(parts, k);
    let a = start_of(trip, parts, k);
    let b = part.end as usize;
    let back = is_back(edition, trip, parts, k);
    PartSheet {
        place: k as u32,
        from: trip.point(a),
        to: trip.point(b),
        start: a as u8,
        end: part.end,
        gap: gap_before(trip, parts, k),
        unit: part.unit,
        number: part.fare,
        fare: *fare,
        back,
        mileage: own_mileage(edition, trip, a, b),
        higher: higher_pair(edition, trip, a, b, fare, back),
        amount: amount_of(edition, trip, a, b, part.fare, back),
    }
}

/// The sheet of a part, where its fare is filed.
pub(crate) fn sheet_of_part(
    edition: &Edition,
    trip: &Trip,
    parts: &[Part],
    k: usize,
) -> Option<PartSheet>
    requires few { length parts.now ≤ MOST_PARTS }
    requires advances { Advances trip.now parts.now }
    requires place { IsPlace parts.now k }
    ensures value { result ≡ sheet_of_part edition.now trip.now parts.now k }
    ensures bound { IfSome result (λ sheet. sheet.amount ≤ MOST_AMOUNT) }
{
    match edition.fare_at(part_at(parts, k).fare) {
        None => None,
        Some(fare) => Some(sheet_with(edition, trip, parts, k, fare)),
    }
}
