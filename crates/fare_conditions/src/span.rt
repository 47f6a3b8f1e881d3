//! What is the same for all fares that are tried for a span.

ghost use Rattle.std.specs.Prelude.{◌≡◌, ◌<◌, ◌≤◌, ◌&&◌, Some, not, true};
ghost use Rattle.fare_trip.specs.Itinerary.{count};
ghost use Rattle.fare_rules.specs.Indicator.{indicator};
ghost use Rattle.fare_rules.specs.Span.{holds_surface};
ghost use Rattle.fare_rules.specs.ComponentAmount.{repeats_city, span_surcharge};
ghost use Rattle.fare_conditions.specs.Spans.{IsSpan};

use crate::fares::{greatest_rank, one_carrier};
use crate::priced::Priced;
use crate::spans::{stopovers, transfers};
use fare_codes::{Carrier, Indicator, MOST_SURCHARGE};

/// What a span, from a point to another, asks of a fare: its indicator, the surcharge of its mileage, its stopovers and
/// transfers, the greatest rank of its cabins, and the carrier of all its sectors, where they have one.
#[derive(Clone, Copy)]
pub struct Span {
    pub a: usize,
    pub b: usize,
    pub ind: Indicator,
    pub step: u32,
    pub stops: u32,
    pub transfers: u32,
    pub rank: u32,
    pub carrier: Option<Carrier>,
}

/// What a span with an indicator and a surcharge asks of a fare.
pub fn span_of(priced: &Priced, a: usize, b: usize, ind: Indicator, step: u32) -> Span
    requires rises { a < b }
    requires within { b ≤ count priced.now.trip.now }
    requires plain { (not (holds_surface priced.now.trip.now a b)
        && not (repeats_city priced.now.trip.now a b)) ≡ true }
    requires indicator { ind ≡ indicator priced.now.edition.now priced.now.trip.now a b }
    requires measured { span_surcharge priced.now.edition.now priced.now.trip.now a b ≡ Some step }
    requires step { step ≤ MOST_SURCHARGE }
    ensures start { result.a ≡ a }
    ensures end { result.b ≡ b }
    ensures span { IsSpan priced.now.edition.now priced.now.trip.now result }
{
    let trip = priced.trip;
    Span {
        a,
        b,
        ind,
        step,
        stops: stopovers(trip, a, b),
        transfers: transfers(trip, a, b),
        rank: greatest_rank(trip, a, b),
        carrier: one_carrier(trip, a, b),
    }
}
