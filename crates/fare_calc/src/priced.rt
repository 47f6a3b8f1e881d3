//! A lawful construction with its price.

ghost use Rattle.std.specs.Prelude.{◌≡◌, Ok};
ghost use Rattle.fare_rules.specs.Lawful.{lawful_price};

use fare_tariff::Edition;
use fare_trip::Trip;
use fare_units::{Construction, lawful_price};

/// A construction that is lawful for a trip in an edition, with its price in hundredths of a NUC.
#[derive(Clone, Copy)]
pub struct Priced<'a> {
    /// The edition by which it is priced.
    pub edition: &'a Edition,
    /// The trip.
    pub trip: &'a Trip,
    /// The construction.
    pub construction: &'a Construction,
    /// Its price.
    pub price: u64,
    pub ghost lawful: { lawful_price edition.now trip.now construction.now ≡ Ok price },
}

impl<'a> Priced<'a> {
    ghost use Rattle.std.specs.Prelude.{None};
    ghost use Rattle.fare_rules.specs.Lawful.{first_broken};

    /// A construction that breaks no rule, with the price that its rules and amounts give.
    #[tactic(auto, unfolding(fare_rules::specs::Lawful::lawful_price))]
    pub(crate) fn of(
        edition: &'a Edition,
        trip: &'a Trip,
        construction: &'a Construction,
    ) -> Priced<'a>
        requires { first_broken edition.now trip.now construction.now ≡ None }
        ensures edition { result.edition.now ≡ edition.now }
        ensures trip { result.trip.now ≡ trip.now }
        ensures construction { result.construction.now ≡ construction.now }
    {
        let price = lawful_price(edition, trip, construction).unwrap();
        Priced {
            edition,
            trip,
            construction,
            price,
        }
    }
}
