//! A bound that knows no more than it was told.

ghost use Rattle.std.specs.Prelude.{◌≡◌, ◌≤◌};
ghost use Rattle.fare_branch.specs.Search.{IsLeastPrice, IsPriceOfOne};
ghost use Rattle.fare_branch.specs.LeastPrice.{least_price};

use crate::bound::{Bound, NO_PRICE};
use fare_rules::{edition_is_valid, price_is_bounded};
use fare_tariff::Edition;
use fare_trip::Trip;
use std::snapshot::Snapshot;

/// The bound of one search: it answers the least price that it was told. Its `fixed` is the least price of a lawful
/// construction, or `NO_PRICE` where none is lawful; contracts alone see it.
#[derive(Drop)]
pub struct OwnBound {
    edition: Snapshot<Edition>,
    trip: Snapshot<Trip>,
    least: u64,
    ghost above: { least_price edition.value trip.value ≤ least },
}

impl OwnBound {
    /// A bound for the constructions of a trip in an edition, which was told nothing.
    #[tactic(auto, using(crate::proofs::LeastLemmas::least_price_is, crate::proofs::LeastLemmas::least_price_low))]
    pub fn new(edition: &Edition, trip: &Trip) -> OwnBound
        ensures fixed { IsLeastPrice edition.now trip.now (⟦<OwnBound as Bound>⟧.fixed result) }
        ensures least { ⟦<OwnBound as Bound>⟧.least result ≡ NO_PRICE }
    {
        edition_is_valid(edition);
        price_is_bounded();
        let _sectors = trip.count();
        OwnBound {
            edition: Snapshot::of(edition),
            trip: Snapshot::of(trip),
            least: NO_PRICE,
        }
    }

    /// A bound for the same, which was told the price of a lawful construction.
    pub fn told(edition: &Edition, trip: &Trip, price: u64) -> OwnBound
        requires { IsPriceOfOne edition.now trip.now price }
        ensures fixed { IsLeastPrice edition.now trip.now (⟦<OwnBound as Bound>⟧.fixed result) }
        ensures least { ⟦<OwnBound as Bound>⟧.least result ≡ price }
    {
        least_is_at_most(edition, trip, price);
        OwnBound {
            edition: Snapshot::of(edition),
            trip: Snapshot::of(trip),
            least: price,
        }
    }
}

/// The least price of a lawful construction is at most that of each.
fn least_is_at_most(edition: &Edition, trip: &Trip, price: u64)
    requires { IsPriceOfOne edition.now trip.now price }
    ensures least { IsLeastPrice edition.now trip.now (least_price edition.now trip.now) }
    ensures at_most { least_price edition.now trip.now ≤ price }
{}

impl Bound for OwnBound {
    ghost fixed = { λ bound. least_price bound.edition.value bound.trip.value };

    ghost least = { λ bound. bound.least };

    ghost never_below = { λ bound. bound.above };

    fn seen(&mut self) -> u64
        ensures fixed { ⟦<OwnBound as Bound>⟧.fixed self.new ≡ ⟦<OwnBound as Bound>⟧.fixed self.old }
        ensures floor { ⟦<OwnBound as Bound>⟧.fixed self.new ≤ result }
        ensures least { ⟦<OwnBound as Bound>⟧.least self.new ≡ result }

        // It answers the least price that it was told.
        ensures answer { result ≡ ⟦<OwnBound as Bound>⟧.least self.old }
    {
        self.least
    }

    fn found(&mut self, price: u64) {
        self.least = self.least.min(price);
    }
}
