//! How far the references of a form were gone through, point by point: what is greatest of them is kept for the longer
//! components from the same point.

ghost use Rattle.std.specs.Prelude.{◌≡◌, ◌+◌, ◌<◌, ◌≤◌, IfSome};
ghost use Rattle.fare_trip.specs.Itinerary.{count};
ghost use Rattle.fare_rules.specs.UnitPrice.{at_least};
ghost use Rattle.fare_component.specs.References.{AreReferences, greatest_inner, to_stop};

use crate::table::columns::greatest_to;
use crate::table::references::{Reach, References};
use fare_codes::{FARE_LIMIT, Nuc};
use fare_conditions::Priced;

/// The reference from the start of a component to a point, where that is a stopover.
fn reference_to_stopover(priced: &Priced, known: &mut References, a: usize, j: usize) -> Option<Nuc>
    requires known { AreReferences priced.now.edition.now priced.now.trip.now known.old }
    requires rises { a < j }
    requires within { j ≤ count priced.now.trip.now }
    ensures value { result ≡ to_stop priced.now.edition.now priced.now.trip.now known.old.form a j }
    ensures bound { IfSome result (λ amount. amount < FARE_LIMIT) }
    ensures form { known.new.form ≡ known.old.form }
    ensures reach { known.new.reach ≡ known.old.reach }
    ensures known { AreReferences priced.now.edition.now priced.now.trip.now known.new }
{
    if priced.trip.sector(j).stop {
        known.between(priced, a, j)
    } else {
        None
    }
}

/// The greater of an amount of hundredths and a reference, where there is one.
fn or_more(high: u64, found: &Option<Nuc>) -> u64
    ensures { result ≡ at_least high found.now }
{
    match found {
        None => high,
        Some(found) => high.max(found.hundredths()),
    }
}

/// The greatest reference, in hundredths, of the pairs that each component compares from the same point to one behind
/// the point that was come to, where the reference to that one is known.
#[tactic(auto, using(crate::proofs::ReachLemmas::further, crate::proofs::ReachLemmas::no_further))]
fn high_behind(priced: &Priced, known: &mut References, first: &Option<Nuc>) -> u64
    requires known { AreReferences priced.now.edition.now priced.now.trip.now known.old }
    requires within { known.old.reach.past ≤ count priced.now.trip.now }
    requires first { first.now
        ≡ to_stop priced.now.edition.now priced.now.trip.now known.old.form known.old.reach.from known.old.reach.past }
    requires first_low { IfSome first.now (λ amount. amount < FARE_LIMIT) }
    ensures value { result ≡ greatest_inner priced.now.edition.now priced.now.trip.now
        known.old.form known.old.reach.from (known.old.reach.past + 1) }
    ensures bound { result < FARE_LIMIT }
    ensures form { known.new.form ≡ known.old.form }
    ensures known { AreReferences priced.now.edition.now priced.now.trip.now known.new }
{
    let reach = known.reach;
    if priced.trip.sector(reach.past).stop {
        let later = greatest_to(priced, known, reach.from + 1, reach.past);
        reach.high.max(or_more(later.hundredths(), first))
    } else {
        reach.high
    }
}

/// Goes one point further.
#[tactic(auto, using(crate::proofs::ReachLemmas::first_further))]
fn go_on(priced: &Priced, known: &mut References)
    requires known { AreReferences priced.now.edition.now priced.now.trip.now known.old }
    requires within { known.old.reach.past ≤ count priced.now.trip.now }
    ensures from { known.new.reach.from ≡ known.old.reach.from }
    ensures past { known.new.reach.past ≡ known.old.reach.past + 1 }
    ensures form { known.new.form ≡ known.old.form }
    ensures known { AreReferences priced.now.edition.now priced.now.trip.now known.new }
{
    let count = priced.trip.count();
    let reach = known.reach;
    prove!(reach.past <= count);
    let found = reference_to_stopover(priced, known, reach.from, reach.past);
    let high = high_behind(priced, known, &found);
    known.reach = Reach {
        from: reach.from,
        past: reach.past + 1,
        high,
        first: or_more(reach.first, &found),
    };
}

/// Goes as far as a component reaches.
pub(crate) fn go_to(priced: &Priced, known: &mut References, a: usize, b: usize)
    requires known { AreReferences priced.now.edition.now priced.now.trip.now known.old }
    requires rises { a < b }
    requires within { b ≤ count priced.now.trip.now }
    ensures from { known.new.reach.from ≡ a }
    ensures past { known.new.reach.past ≡ b }
    ensures form { known.new.form ≡ known.old.form }
    ensures known { AreReferences priced.now.edition.now priced.now.trip.now known.new }
{
    let count = priced.trip.count();
    prove!(b <= count);
    known.begin(a, b);
    for past in known.reach.past..b {
        go_on(priced, known);
    }
}
