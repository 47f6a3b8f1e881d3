//! The pricing units of a construction, counted, and how one of a lawful construction is priced.

ghost use Rattle.std.specs.Prelude.{◌≡◌, ◌≤◌, Ok, None};
ghost use Rattle.fare_rules.specs.Construction.{own, greatest_unit, places};
ghost use Rattle.fare_rules.specs.Lawful.{first_broken};
ghost use Rattle.fare_rules.specs.UnitPrice.{unit_sheet};

use crate::construction::Construction;
use crate::prices::price::{MOST_UNIT_PRICE, sheet_of};
use fare_lawful::{greatest_unit, own};
use fare_rules::UnitSheet;
use fare_tariff::Edition;
use fare_trip::Trip;

/// The kind of a unit of a lawful construction, the sum of its amounts, its minimum where there is one, and its price.
#[tactic(auto, using(fare_lawful::proofs::UnitLemmas::advances_of_unbroken, fare_lawful::proofs::UnitLemmas::numbered_of_unbroken, fare_lawful::proofs::UnitLemmas::unit_has_parts))]
pub fn unit_sheet(edition: &Edition, trip: &Trip, c: &Construction, unit: u8) -> UnitSheet
    requires lawful { first_broken edition.now trip.now c.now ≡ None }
    requires from_one { 1 ≤ unit }
    requires to_greatest { unit ≤ greatest_unit c.now (places c.now) }
    ensures sheet { result ≡ unit_sheet edition.now trip.now c.now (own c.now unit) }
    ensures bound { result.price ≤ MOST_UNIT_PRICE }
{
    let parts = c.parts();
    let own = own(parts, unit as usize);
    sheet_of(edition, trip, None, parts, own.as_slice())
}

/// How many pricing units the construction has: the greatest unit number of its parts.
pub fn unit_count(c: &Construction) -> usize
    ensures value { result ≡ greatest_unit c.now (places c.now) }
    ensures small { result ≤ 255 }
{
    greatest_unit(c.parts())
}
