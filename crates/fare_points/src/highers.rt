ghost use Rattle.std.specs.Prelude.{◌≡◌, ◌<◌, ◌≤◌, ◌^◌, ◌⊎◌, IfSome, nat_lt, if◌then◌else◌};
ghost use Rattle.std.specs.Option.{option_to_list};
ghost use Rattle.fare_trip.specs.Itinerary.{count};
ghost use Rattle.fare_rules.specs.Base.{base, compared_from, higher};
ghost use Rattle.fare_points.specs.Improved.{IsPairOf, amount_to_exceed, improved};

use crate::comparison::{Compared, Component};
use crate::indicators::indicators_from;
use fare_codes::Nuc;
use fare_tariff::{Edition, FareRec};
use fare_trip::Trip;

/// The amount that is to be exceeded: that of the best pair so far, or the fare's where there is none.
fn amount_to_exceed(amount: Nuc, best: &Option<Compared>) -> Nuc
    ensures { result ≡ amount_to_exceed amount best.now }
{
    match best {
        None => amount,
        Some(found) => found.2,
    }
}

/// The best pair once one more is compared.
fn improved(amount: Nuc, best: Option<Compared>, found: Option<Compared>) -> Option<Compared>
    ensures value { result ≡ improved amount best (option_to_list found) }
    ensures either { (result ≡ best) ⊎ (result ≡ found) }
{
    match found {
        None => best,
        Some(pair) => better(amount, best, pair),
    }
}

/// The better of the best pair so far and another: the other where it exceeds the best.
fn better(amount: Nuc, best: Option<Compared>, found: Compared) -> Option<Compared>
    ensures value { result ≡ (if nat_lt (amount_to_exceed amount best) found.2 then Some found else best) }
    ensures either { (result ≡ best) ⊎ (result ≡ Some found) }
{
    let exceeded = amount_to_exceed(amount, &best);
    if exceeded.hundredths() < found.2.hundredths() {
        Some(found)
    } else {
        best
    }
}

/// The best pair once those that begin at a point of a component are compared.
#[tactic(auto, using(crate::proofs::Highest::improved_past, crate::proofs::Highest::improved_next))]
fn improved_from(component: &Component, i: usize, best: Option<Compared>) -> Option<Compared>
    requires begins { component.now.a ≤ i }
    requires rises { i < component.now.b }
    requires within { component.now.b ≤ count component.now.trip.now }
    requires best { IfSome best (IsPairOf component.now.a component.now.b) }
    ensures value { result ≡ improved component.now.fare.now.amount best
        (compared_from component.now.edition.now component.now.trip.now component.now.a component.now.b
        component.now.fare.now component.now.back i) }
    ensures bound { IfSome result (IsPairOf component.now.a component.now.b) }
{
    let (fare, b) = (component.fare, component.b);
    let count = component.trip.count();
    prove!(b <= count);
    let inds = indicators_from(component.edition, component.trip, i, b);
    let mut best = best;
    for j in i..b {
        let found = component.compared_pair(inds[j + 1], i, j + 1);
        best = improved(fare.amount.nuc(), best, found);
    }
    best
}

/// The higher intermediate point of a fare from point `a` to point `b`, priced back or not: the first pair of points
/// whose reference is the base, with the base, where that is above the fare's amount; nothing exactly where no
/// reference is above it.
#[tactic(auto, using(crate::proofs::Highest::improved_end, crate::proofs::Highest::improved_at, crate::proofs::Highest::improved_first, crate::proofs::Highest::amount_of_highest), unfolding(fare_rules::specs::Base::higher, fare_rules::specs::Base::base, fare_rules::specs::Base::compared_pairs))]
pub fn higher(
    edition: &Edition,
    trip: &Trip,
    a: usize,
    b: usize,
    fare: &FareRec,
    back: bool,
) -> Option<(usize, usize, Nuc)>
    requires rises { a < b }
    requires within { b ≤ count trip.now }
    ensures value { result ≡ higher edition.now trip.now a b fare.now back }
    ensures base { base edition.now trip.now a b fare.now back ≡ amount_to_exceed fare.now.amount result }
    ensures bound { IfSome result (IsPairOf a b) }
{
    let component = Component {
        edition,
        trip,
        a,
        b,
        fare,
        back,
    };
    let mut best = None;
    for i in a..b {
        best = improved_from(&component, i, best);
    }
    best
}
