//! What the mileage of a span asks of a fare.

ghost use Rattle.std.specs.Prelude.{◌≡◌, ◌<◌, ◌≤◌, IfSome};
ghost use Rattle.fare_trip.specs.Itinerary.{count};
ghost use Rattle.fare_rules.specs.Indicator.{indicator};
ghost use Rattle.fare_rules.specs.ComponentAmount.{span_surcharge, mileage_holds, excess_holds};
ghost use Rattle.fare_rules.specs.Mileage.{surcharge_of};

use crate::priced::Priced;
use crate::terms::is_allowed;
use fare_codes::{Indicator, MOST_SURCHARGE};
use fare_mileage::{Mileage, mileage, mileage_by};
use fare_points::indicator;
use fare_tariff::{Edition, FareRec};
use fare_trip::Trip;

/// The surcharge that a mileage asks for, where it lets a fare be used.
fn surcharge_of(mileage: Mileage) -> Option<u32>
    ensures { result ≡ surcharge_of mileage }
{
    match mileage {
        Mileage::Direct | Mileage::Within(_) => Some(0),
        Mileage::Excess(step, _) => Some(step),
        Mileage::NoTpm(_) | Mileage::NoMpm | Mileage::Over(_) => None,
    }
}

/// The surcharge that the mileage of a span asks for, in hundredths of the base, where it lets a fare be used and the
/// span's indicator is this; by the mileages of the sectors that were looked up once.
#[tactic(auto, unfolding(fare_rules::specs::ComponentAmount::span_surcharge))]
pub fn surcharge_by(priced: &Priced, a: usize, b: usize, ind: Indicator) -> Option<u32>
    requires rises { a < b }
    requires within { b ≤ count priced.now.trip.now }
    requires indicator { ind ≡ indicator priced.now.edition.now priced.now.trip.now a b }
    ensures value { result ≡ span_surcharge priced.now.edition.now priced.now.trip.now a b }
    ensures bound { IfSome result (λ step. step ≤ MOST_SURCHARGE) }
{
    let miles = &priced.indicators.miles;
    surcharge_of(mileage_by(priced.edition, priced.trip, miles, a, b, ind))
}

/// The surcharge that the mileage of a span asks for, in hundredths of the base, where it lets a fare be used.
#[tactic(auto, unfolding(fare_rules::specs::ComponentAmount::span_surcharge))]
pub(crate) fn span_surcharge(edition: &Edition, trip: &Trip, a: usize, b: usize) -> Option<u32>
    requires rises { a < b }
    requires within { b ≤ count trip.now }
    ensures value { result ≡ span_surcharge edition.now trip.now a b }
    ensures bound { IfSome result (λ step. step ≤ MOST_SURCHARGE) }
{
    surcharge_of(mileage(edition, trip, a, b, indicator(edition, trip, a, b)))
}

/// Whether the mileage of a span lets a fare be used.
pub fn mileage_holds(edition: &Edition, trip: &Trip, a: usize, b: usize) -> bool
    requires rises { a < b }
    requires within { b ≤ count trip.now }
    ensures { result ≡ mileage_holds edition.now trip.now a b }
{
    span_surcharge(edition, trip, a, b).is_some()
}

/// Whether the rule of a fare allows the surcharge that the mileage of a span asks for; true where the mileage lets no
/// fare be used.
#[tactic(auto, unfolding(fare_rules::specs::ComponentAmount::excess_holds))]
pub fn excess_holds(edition: &Edition, trip: &Trip, a: usize, b: usize, fare: &FareRec) -> bool
    requires rises { a < b }
    requires within { b ≤ count trip.now }
    ensures { result ≡ excess_holds edition.now trip.now a b fare.now }
{
    is_allowed(edition, fare, span_surcharge(edition, trip, a, b))
}
