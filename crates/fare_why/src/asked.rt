ghost use Rattle.std.specs.Prelude.{◌≡◌, ◌<◌};
ghost use Rattle.std.specs.Option.{ForSome};
ghost use Rattle.fare_rules.specs.declared.limits.TheConstants.{PRICE_LIMIT};
ghost use Rattle.fare_branch.specs.LeastPrice.{least_price};
ghost use Rattle.fare_why.specs.Asked.{NoneIsCheaper};

use fare_tariff::Edition;
use fare_trip::Trip;

/// What is asked of each search: what is cheaper than the best construction of a trip in an edition.
#[derive(Clone, Copy)]
pub(crate) struct Asked<'a> {
    /// The edition.
    pub(crate) edition: &'a Edition,
    /// The trip.
    pub(crate) trip: &'a Trip,
    /// The price of the best construction, where one is lawful.
    pub(crate) total: Option<u64>,
    pub(crate) ghost bound: { ForSome total (λ price. price < PRICE_LIMIT) },
    pub(crate) ghost reached: { ForSome total (λ price. price ≡ least_price edition.now trip.now) },
    pub(crate) ghost best: { NoneIsCheaper edition.now trip.now total },
}
