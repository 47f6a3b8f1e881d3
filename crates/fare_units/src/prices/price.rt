//! Unit price: what a pricing unit costs, by its kind, and what a construction costs.

ghost use Rattle.std.specs.Prelude.{◌≡◌, ◌+◌, ◌*◌, ◌<◌, ◌≤◌, ◌^◌, [], ◌∷◌, IfSome, length, sum_by, None};
ghost use Rattle.std.specs.Option.{option_copied};
ghost use Rattle.fare_trip.specs.Itinerary.{count};
ghost use Rattle.fare_rules.specs.Construction.{own, misnumbered};
ghost use Rattle.fare_rules.specs.UnitPrice.{part_amount, part_cost, unit_sum, are_two_equal, is_round_trip};
ghost use Rattle.fare_rules.specs.UnitPrice.{unit_kind, part_backhaul, unit_minimum, at_least, sheet_from};
ghost use Rattle.fare_rules.specs.UnitPrice.{sheet_of_kind, unit_sheet, unit_price, price};
ghost use Rattle.fare_rules.specs.ComponentAmount.{component_amount};
ghost use Rattle.fare_component.specs.Usable.{IsAmount};
ghost use Rattle.fare_lawful.specs.Advance.{Advances};
ghost use Rattle.fare_lawful.specs.Known.{IsOf};
ghost use Rattle.fare_lawful.specs.Places.{IsPlace, ArePlaces};
ghost use Rattle.fare_lawful.specs.Shut.{lacks_amount};

use crate::prices::circle::unit_circle_minimum;
use fare_codes::Nuc;
use fare_component::{Table, applicable};
use fare_lawful::{
    MOST_PARTS, closes, end_of, fare_of, first_of, greatest_unit, holds_ow, is_back_in,
    is_open_jaw, is_ow, own, part_at, start_of,
};
use fare_points::backhaul;
use fare_rules::{Amount, MOST_AMOUNT, Part, UnitKind, UnitSheet};
use fare_tariff::Edition;
use fare_trip::Trip;

/// What a unit costs at most, in hundredths of a NUC: as much as `MOST_PARTS` parts of the greatest amount.
pub const MOST_UNIT_PRICE: u64 = MOST_PARTS as u64 * MOST_AMOUNT;

/// A component of a trip: a fare for the span from point `a` to point `b`.
#[derive(Clone, Copy)]
struct Component {
    a: usize,
    b: usize,
    /// The record number of the fare.
    fare: u32,
    /// Whether the fare is priced from `b` to `a`.
    back: bool,
}

/// The amount of a component, from a table where there is one.
fn amount_of(
    edition: &Edition,
    trip: &Trip,
    known: Option<&Table>,
    component: Component,
) -> Option<Amount>
    requires known { IfSome known (λ table. IsOf edition.now trip.now table.now) }
    requires rises { component.a < component.b }
    requires within { component.b ≤ count trip.now }
    ensures value { result
        ≡ component_amount edition.now trip.now component.a component.b component.fare component.back }
    ensures bound { IfSome result IsAmount }
{
    let Component { a, b, fare, back } = component;
    match known {
        None => applicable(edition, trip, a, b, fare, back),
        Some(table) => table.amount(a, b, fare, back),
    }
}

/// The component amount of a part of a unit, in the part's direction.
#[tactic(auto, unfolding(fare_rules::specs::UnitPrice::part_amount))]
fn part_amount(
    edition: &Edition,
    trip: &Trip,
    known: Option<&Table>,
    parts: &[Part],
    own: &[usize],
    k: usize,
) -> Option<Amount>
    requires advances { Advances trip.now parts.now }
    requires place { IsPlace parts.now k }
    requires known { IfSome known (λ table. IsOf edition.now trip.now table.now) }
    ensures value { result ≡ part_amount edition.now trip.now parts.now own.now k }
    ensures bound { IfSome result IsAmount }
{
    let component = Component {
        a: start_of(trip, parts, k),
        b: end_of(parts, k),
        fare: part_at(parts, k).fare,
        back: is_back_in(edition, trip, parts, own, k),
    };
    amount_of(edition, trip, known, component)
}

/// The hundredths that a part of a unit costs.
fn part_cost(
    edition: &Edition,
    trip: &Trip,
    known: Option<&Table>,
    parts: &[Part],
    own: &[usize],
    k: usize,
) -> u64
    requires advances { Advances trip.now parts.now }
    requires place { IsPlace parts.now k }
    requires known { IfSome known (λ table. IsOf edition.now trip.now table.now) }
    ensures value { result ≡ part_cost edition.now trip.now parts.now own.now k }
    ensures bound { result ≤ MOST_AMOUNT }
{
    match part_amount(edition, trip, known, parts, own, k) {
        None => 0,
        Some(found) => found.amount.hundredths(),
    }
}

/// Whether some part of a unit has no amount in its direction.
#[tactic(auto, using(crate::proofs::PriceSteps::lacks_next, crate::proofs::PriceSteps::lacks_past, crate::proofs::PriceSteps::lacks_done, fare_lawful::proofs::OwnLemmas::place_at))]
pub(crate) fn lacks_amount(
    edition: &Edition,
    trip: &Trip,
    known: Option<&Table>,
    parts: &[Part],
    own: &[usize],
) -> bool
    requires advances { Advances trip.now parts.now }
    requires places { ArePlaces parts.now own.now }
    requires known { IfSome known (λ table. IsOf edition.now trip.now table.now) }
    ensures { result ≡ lacks_amount edition.now trip.now parts.now own.now }
{
    for i in 0..own.len() {
        if part_amount(edition, trip, known, parts, own, own[i]).is_none() {
            return true;
        }
    }
    false
}

/// The sum of the amounts of a unit.
#[tactic(auto, using(crate::proofs::PriceSteps::sum_left, crate::proofs::PriceSteps::sum_done, fare_lawful::proofs::OwnLemmas::place_at), unfolding(fare_rules::specs::UnitPrice::unit_sum))]
fn unit_sum(
    edition: &Edition,
    trip: &Trip,
    known: Option<&Table>,
    parts: &[Part],
    own: &[usize],
) -> u64
    requires advances { Advances trip.now parts.now }
    requires places { ArePlaces parts.now own.now }
    requires few_own { length own.now ≤ MOST_PARTS }
    requires known { IfSome known (λ table. IsOf edition.now trip.now table.now) }
    ensures value { result ≡ unit_sum edition.now trip.now parts.now own.now }
    ensures bound { result ≤ MOST_UNIT_PRICE }
{
    let mut sum = 0;
    for i in 0..own.len() {
        sum += part_cost(edition, trip, known, parts, own, own[i]);
    }
    sum
}

/// Whether a unit has exactly two parts, of equal amounts.
#[tactic(auto, using(crate::proofs::PriceSteps::two_equal, crate::proofs::PriceSteps::others_unequal, fare_lawful::proofs::OwnLemmas::place_at))]
fn are_two_equal(
    edition: &Edition,
    trip: &Trip,
    known: Option<&Table>,
    parts: &[Part],
    own: &[usize],
) -> bool
    requires advances { Advances trip.now parts.now }
    requires places { ArePlaces parts.now own.now }
    requires known { IfSome known (λ table. IsOf edition.now trip.now table.now) }
    ensures { result ≡ are_two_equal (part_cost edition.now trip.now parts.now own.now) own.now }
{
    if own.len() != 2 {
        return false;
    }
    part_cost(edition, trip, known, parts, own, own[0])
        == part_cost(edition, trip, known, parts, own, own[1])
}

/// Whether a unit is a round trip: it closes, and has exactly two parts of equal amounts.
#[tactic(auto, unfolding(fare_rules::specs::UnitPrice::is_round_trip))]
fn is_round_trip(
    edition: &Edition,
    trip: &Trip,
    known: Option<&Table>,
    parts: &[Part],
    own: &[usize],
) -> bool
    requires advances { Advances trip.now parts.now }
    requires places { ArePlaces parts.now own.now }
    requires known { IfSome known (λ table. IsOf edition.now trip.now table.now) }
    ensures { result ≡ is_round_trip edition.now trip.now parts.now own.now }
{
    closes(trip, parts, own) && are_two_equal(edition, trip, known, parts, own)
}

/// The kind of a unit: one way where it holds a one way fare, else an open jaw, a round trip, or else a circle trip.
#[tactic(auto, unfolding(fare_rules::specs::UnitPrice::unit_kind))]
fn unit_kind(
    edition: &Edition,
    trip: &Trip,
    known: Option<&Table>,
    parts: &[Part],
    own: &[usize],
) -> UnitKind
    requires advances { Advances trip.now parts.now }
    requires places { ArePlaces parts.now own.now }
    requires known { IfSome known (λ table. IsOf edition.now trip.now table.now) }
    ensures { result ≡ unit_kind edition.now trip.now parts.now own.now }
{
    if holds_ow(edition, parts, own) {
        return UnitKind::OW;
    }
    if is_open_jaw(edition, trip, parts, own) {
        return UnitKind::OJ;
    }
    if is_round_trip(edition, trip, known, parts, own) {
        return UnitKind::RT;
    }
    UnitKind::CT
}

/// The backhaul minimum of a part.
fn part_backhaul(edition: &Edition, trip: &Trip, parts: &[Part], k: usize) -> Option<Nuc>
    requires advances { Advances trip.now parts.now }
    requires place { IsPlace parts.now k }
    ensures value { result ≡ part_backhaul edition.now trip.now parts.now k }
    ensures bound { IfSome result (λ minimum. minimum < 2 * 10 ^ 9) }
{
    match fare_of(edition, parts, k) {
        None => None,
        Some(fare) => {
            let a = start_of(trip, parts, k);
            let b = end_of(parts, k);
            backhaul(edition, trip, a, b, fare)
        }
    }
}

/// The minimum of a unit by its kind: the backhaul minimum one way, the circle minimum of a circle trip, and else none.
#[tactic(auto, using(fare_lawful::proofs::OwnLemmas::first_is_place), unfolding(fare_rules::specs::UnitPrice::unit_minimum))]
fn unit_minimum(
    edition: &Edition,
    trip: &Trip,
    parts: &[Part],
    own: &[usize],
    kind: UnitKind,
) -> Option<Nuc>
    requires advances { Advances trip.now parts.now }
    requires places { ArePlaces parts.now own.now }
    requires some { 1 ≤ length own.now }
    ensures value { result ≡ unit_minimum edition.now trip.now parts.now own.now kind }
    ensures bound { IfSome result (λ minimum. minimum < 2 * 10 ^ 9) }
{
    match kind {
        UnitKind::OW => part_backhaul(edition, trip, parts, first_of(own)),
        UnitKind::RT => None,
        UnitKind::CT => unit_circle_minimum(edition, trip, parts, own),
        UnitKind::OJ => None,
    }
}

/// The sheet of a kind, a sum and a minimum: the price is the greater of the two.
fn sheet_from(kind: UnitKind, sum: u64, minimum: Option<Nuc>) -> UnitSheet
    requires sum { sum ≤ MOST_UNIT_PRICE }
    requires minimum { IfSome minimum (λ minimum. minimum < 2 * 10 ^ 9) }
    ensures value { result ≡ sheet_from kind sum minimum }
    ensures bound { result.price ≤ MOST_UNIT_PRICE }
{
    match minimum {
        None => UnitSheet {
            kind,
            sum,
            minimum: None,
            price: sum,
        },
        Some(minimum) => UnitSheet {
            kind,
            sum,
            minimum: Some(minimum.hundredths()),
            price: sum.max(minimum.hundredths()),
        },
    }
}

/// The kind, sum, minimum and price of the unit of some places of parts.
#[tactic(auto, unfolding(fare_rules::specs::UnitPrice::unit_sheet))]
pub(crate) fn sheet_of(
    edition: &Edition,
    trip: &Trip,
    known: Option<&Table>,
    parts: &[Part],
    own: &[usize],
) -> UnitSheet
    requires advances { Advances trip.now parts.now }
    requires places { ArePlaces parts.now own.now }
    requires few_own { length own.now ≤ MOST_PARTS }
    requires some { 1 ≤ length own.now }
    requires known { IfSome known (λ table. IsOf edition.now trip.now table.now) }
    ensures value { result ≡ unit_sheet edition.now trip.now parts.now own.now }
    ensures bound { result.price ≤ MOST_UNIT_PRICE }
{
    let kind = unit_kind(edition, trip, known, parts, own);
    let sum = unit_sum(edition, trip, known, parts, own);
    sheet_from(kind, sum, unit_minimum(edition, trip, parts, own, kind))
}

/// The place of the one part of a unit, where it has no more.
fn lone(own: &[usize]) -> Option<usize>
    ensures { IfSome result (λ k. own.now ≡ k ∷ []) }
{
    match own {
        [k] => Some(*k),
        _ => None,
    }
}

/// The price of a part of a one way fare as a unit of its own, from a table.
fn single_of_part(table: &Table, parts: &[Part], k: usize) -> Option<u64>
    requires advances { Advances table.now.trip parts.now }
    requires place { IsPlace parts.now k }
    ensures price { IfSome result
        (λ price. (unit_sheet table.now.edition table.now.trip parts.now (k ∷ [])).price ≡ price) }
    ensures bound { IfSome result (λ price. price ≤ MOST_UNIT_PRICE) }
{
    if !is_ow(table.edition(), parts, k) {
        return None;
    }
    let a = start_of(table.trip(), parts, k);
    let b = end_of(parts, k);
    match table.single(a, b, part_at(parts, k).fare) {
        None => None,
        Some(price) => Some(price.hundredths()),
    }
}

/// The price of the unit of some places of parts, where a table tells it.
fn told_price(
    edition: &Edition,
    trip: &Trip,
    known: Option<&Table>,
    parts: &[Part],
    own: &[usize],
) -> Option<u64>
    requires advances { Advances trip.now parts.now }
    requires places { ArePlaces parts.now own.now }
    requires known { IfSome known (λ table. IsOf edition.now trip.now table.now) }
    ensures price { IfSome result (λ price. (unit_sheet edition.now trip.now parts.now own.now).price ≡ price) }
    ensures bound { IfSome result (λ price. price ≤ MOST_UNIT_PRICE) }
{
    let _edition = edition;
    let _trip = trip;
    match (known, lone(own)) {
        (Some(table), Some(k)) => single_of_part(table, parts, k),
        _ => None,
    }
}

/// The price of a unit.
pub(crate) fn unit_price(
    edition: &Edition,
    trip: &Trip,
    known: Option<&Table>,
    parts: &[Part],
    unit: usize,
) -> u64
    requires few { length parts.now ≤ MOST_PARTS }
    requires advances { Advances trip.now parts.now }
    requires some { 1 ≤ length (own parts.now unit) }
    requires known { IfSome known (λ table. IsOf edition.now trip.now table.now) }
    ensures value { result ≡ unit_price edition.now trip.now parts.now unit }
    ensures bound { result ≤ MOST_UNIT_PRICE }
{
    let own = own(parts, unit);
    let own = own.as_slice();
    match told_price(edition, trip, known, parts, own) {
        Some(price) => price,
        None => sheet_of(edition, trip, known, parts, own).price,
    }
}

/// The price of a construction whose units are numbered in order: the sum of the prices of its units.
#[tactic(auto, using(fare_rules::proofs::NumberLemmas::sum_next, fare_rules::proofs::NumberLemmas::sum_done, fare_lawful::proofs::UnitLemmas::unit_has_parts), unfolding(fare_rules::specs::UnitPrice::price))]
pub(crate) fn price(edition: &Edition, trip: &Trip, known: Option<&Table>, parts: &[Part]) -> u64
    requires few { length parts.now ≤ MOST_PARTS }
    requires advances { Advances trip.now parts.now }
    requires numbered { misnumbered parts.now ≡ None }
    requires known { IfSome known (λ table. IsOf edition.now trip.now table.now) }
    ensures { result ≡ price edition.now trip.now parts.now }
{
    let mut total = 0;
    for unit in 1..greatest_unit(parts) + 1 {
        total += unit_price(edition, trip, known, parts, unit);
    }
    total
}
