//! The base of a fare for a component, by references that are looked up once.

ghost use Rattle.std.specs.Prelude.{◌≡◌, ◌<◌, ◌≤◌};
ghost use Rattle.fare_trip.specs.Itinerary.{count};
ghost use Rattle.fare_rules.specs.Base.{base, compared_pairs, greatest_amount};
ghost use Rattle.fare_component.specs.References.{AreReferencesFrom, IsOfForm};

use crate::table::columns::greatest_to;
use crate::table::reaches::go_to;
use crate::table::references::References;
use fare_codes::{FARE_LIMIT, Nuc};
use fare_conditions::{Component, Priced};
use fare_tariff::FareRec;

/// The amount of a fare, which is below the limit of all fares.
pub(crate) fn amount_of_fare(fare: &FareRec) -> Nuc
    ensures value { result ≡ fare.now.amount }
    ensures bound { result < FARE_LIMIT }
{
    fare.amount.nuc()
}

/// The greatest of an amount and the references of all pairs of a component.
#[tactic(auto, using(crate::proofs::ReachLemmas::of_component))]
fn greatest_of_pairs(
    priced: &Priced,
    known: &mut References,
    component: Component,
    amount: Nuc,
) -> Nuc
    requires known { AreReferencesFrom priced.now.edition.now priced.now.trip.now component.a known.old }
    requires within { component.b ≤ count priced.now.trip.now }
    requires bound { amount < FARE_LIMIT }
    ensures value { result ≡ greatest_amount amount (compared_pairs priced.now.edition.now priced.now.trip.now
        component.a component.b known.old.form.fare known.old.form.back) }
    ensures bound { result < FARE_LIMIT }
    ensures form { known.new.form ≡ known.old.form }
    ensures known { AreReferencesFrom priced.now.edition.now priced.now.trip.now component.a known.new }
{
    let (a, b) = (component.a, component.b);
    go_to(priced, known, a, b);
    let high = known.reach.high;
    let last = greatest_to(priced, known, a + 1, b);
    let greatest = amount.hundredths().max(high).max(last.hundredths());
    Nuc::new(greatest)
}

/// The base of a fare for a component: its amount, or that of a higher intermediate point.
#[tactic(auto, using(crate::proofs::ReferenceLemmas::base_of_form))]
pub(crate) fn base_by(
    priced: &Priced,
    known: &mut References,
    component: Component,
    fare: &FareRec,
) -> Nuc
    requires known { AreReferencesFrom priced.now.edition.now priced.now.trip.now component.a known.old }
    requires form { IsOfForm fare.now component.back known.old.form }
    requires within { component.b ≤ count priced.now.trip.now }
    ensures value { result
        ≡ base priced.now.edition.now priced.now.trip.now component.a component.b fare.now component.back }
    ensures bound { result < FARE_LIMIT }
    ensures form { known.new.form ≡ known.old.form }
    ensures known { AreReferencesFrom priced.now.edition.now priced.now.trip.now component.a known.new }
{
    greatest_of_pairs(priced, known, component, amount_of_fare(fare))
}
