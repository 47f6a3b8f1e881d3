//! Constructions with a price: the calls that answer it, and what follows from one.

ghost use Rattle.std.specs.Prelude.{◌≡◌, ◌<◌, ◌≤◌, Ok, None, IfSome, length, take};
ghost use Rattle.fare_rules.specs.Lawful.{first_broken, lawful_price};
ghost use Rattle.fare_lawful.specs.Advance.{Advances, MeetsFirstThree};
ghost use Rattle.fare_lawful.specs.Known.{IsOf};

use crate::construction::Construction;
use crate::prices::price::price;
use fare_component::Table;
use fare_lawful::{MOST_PARTS, first_broken};
use fare_rules::{Broken, PRICE_LIMIT, Part, edition_is_valid, price_is_bounded};
use fare_tariff::Edition;
use fare_trip::Trip;

/// The price of a lawful construction, or the first rule that it breaks; the amounts are those of a table, where there
/// is one.
#[tactic(auto, using(fare_lawful::proofs::UnitLemmas::advances_of_unbroken, fare_lawful::proofs::UnitLemmas::numbered_of_unbroken), unfolding(fare_rules::specs::Lawful::lawful_price))]
fn lawful_price_with(
    edition: &Edition,
    trip: &Trip,
    known: Option<&Table>,
    parts: &[Part],
) -> Result<u64, Broken>
    requires few { length parts.now ≤ MOST_PARTS }
    requires known { IfSome known (λ table. IsOf edition.now trip.now table.now) }
    ensures { result ≡ lawful_price edition.now trip.now parts.now }
{
    match first_broken(edition, trip, known, parts) {
        Some(found) => Err(found),
        None => Ok(price(edition, trip, known, parts)),
    }
}

/// The price of a lawful construction, or the first rule that it breaks: the least number, at the least place.
pub fn lawful_price(edition: &Edition, trip: &Trip, c: &Construction) -> Result<u64, Broken>
    ensures { result ≡ lawful_price edition.now trip.now c.now }
{
    lawful_price_with(edition, trip, None, c.parts())
}

/// The price of a lawful construction, or the first rule that it breaks, as `lawful_price` answers it: the amounts are
/// those of a table.
pub fn lawful_price_by(table: &Table, c: &Construction) -> Result<u64, Broken>
    ensures { result ≡ lawful_price table.now.edition table.now.trip c.now }
{
    lawful_price_with(table.edition(), table.trip(), Some(table), c.parts())
}

/// A law: a construction that has a price breaks no rule, its parts go on from part to part within the trip, and the
/// price is below 400,000,000.00.
pub fn price_is_of_unbroken(edition: &Edition, trip: &Trip, c: &Construction, price: u64)
    requires { lawful_price edition.now trip.now c.now ≡ Ok price }
    ensures unbroken { first_broken edition.now trip.now c.now ≡ None }
    ensures advances { Advances trip.now c.now }
    ensures bound { price < PRICE_LIMIT }
{
    let _sectors = trip.count();
    edition_is_valid(edition);
    price_is_bounded();
}

/// A law: of a list of parts that meets Cover, Numbering and Record the first `m` parts, however many, are no more than
/// `MOST_PARTS` and go on from part to part within the trip, as `circle_minimum` asks of the parts that it is given.
pub fn first_parts_advance(edition: &Edition, trip: &Trip, parts: &[Part], m: usize)
    requires three { MeetsFirstThree edition.now trip.now parts.now }
    ensures few { length (take m parts.now) ≤ MOST_PARTS }
    ensures advances { Advances trip.now (take m parts.now) }
{
    let _sectors = trip.count();
}
