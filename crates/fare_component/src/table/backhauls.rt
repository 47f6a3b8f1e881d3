//! The backhaul minimum of a one way fare, by references that are looked up once.

ghost use Rattle.std.specs.Prelude.{◌≡◌, ◌<◌, ◌≤◌, ◌*◌, IfSome, false};
ghost use Rattle.fare_trip.specs.Itinerary.{count};
ghost use Rattle.fare_rules.specs.Backhaul.{backhaul};
ghost use Rattle.fare_component.specs.References.{AreReferencesFrom, IsOfForm};

use crate::table::bases::amount_of_fare;
use crate::table::reaches::go_to;
use crate::table::references::References;
use fare_codes::{FARE_LIMIT, Nuc};
use fare_conditions::Priced;
use fare_points::minimum_above;
use fare_tariff::FareRec;

/// The backhaul minimum of a one way fare for a span.
#[tactic(auto, using(crate::proofs::ReferenceLemmas::backhaul_of_form))]
pub(crate) fn backhaul_by(
    priced: &Priced,
    known: &mut References,
    a: usize,
    b: usize,
    fare: &FareRec,
) -> Option<Nuc>
    requires known { AreReferencesFrom priced.now.edition.now priced.now.trip.now a known.old }
    requires form { IsOfForm fare.now false known.old.form }
    requires rises { a < b }
    requires within { b ≤ count priced.now.trip.now }
    ensures value { result ≡ backhaul priced.now.edition.now priced.now.trip.now a b fare.now }
    ensures bound { IfSome result (λ amount. amount < 2 * FARE_LIMIT) }
    ensures known { AreReferencesFrom priced.now.edition.now priced.now.trip.now a known.new }
{
    go_to(priced, known, a, b);
    minimum_above(amount_of_fare(fare), Nuc::new(known.reach.first))
}
