//! The currency of the country where a trip begins.

ghost use Rattle.std.specs.Prelude.{◌≡◌, ◌<◌, IfSome, IsSome, None};
ghost use Rattle.std.specs.Option.{option_copied};
ghost use Rattle.fare_tariff.specs.Record.{IsCurrency};
ghost use Rattle.fare_rules.specs.Lawful.{first_broken};
ghost use Rattle.fare_calc.specs.PartSheets.{home_currency};
ghost use Rattle.fare_calc.specs.Worksheet.{local_amount};

use fare_codes::convert;
use fare_rules::PRICE_LIMIT;
use fare_tariff::{CurRec, Edition};
use fare_trip::Trip;
use fare_units::Construction;

/// The currency of the country where the trip begins.
pub(crate) fn home_currency<'a>(edition: &'a Edition, trip: &Trip) -> Option<&'a CurRec>
    ensures value { option_copied result ≡ home_currency edition.now trip.now }
    ensures in_range { IfSome result (λ r. IsCurrency r.now.roe r.now.decimals r.now.unit) }
{
    match edition.city(trip.point(0)) {
        None => None,
        Some(filed) => edition.currency_of(filed.country),
    }
}

/// A price in hundredths of a NUC, converted to a currency and counted in the last of its decimals.
pub(crate) fn local_amount(price: u64, currency: &CurRec) -> u128
    requires price { price < PRICE_LIMIT }
    requires currency { IsCurrency currency.now.roe currency.now.decimals currency.now.unit }
    ensures { result ≡ local_amount price currency.now }
{
    convert(
        price,
        currency.roe,
        currency.decimals,
        currency.unit,
        currency.mode,
    )
}

/// A law: the country where a lawful construction begins has a currency, so its worksheet has the rate of exchange and
/// the local amount.
#[tactic(auto, using(crate::proofs::HomeLemmas::home_is_filed))]
pub fn home_has_a_currency(edition: &Edition, trip: &Trip, c: &Construction)
    requires { first_broken edition.now trip.now c.now ≡ None }
    ensures { IsSome (home_currency edition.now trip.now) }
{
    let _sectors = trip.count();
    edition.fares_are_filed();
    let home = trip.point(0);
    match edition.city(home) {
        None => (),
        Some(filed) => {
            let _currency = edition.currency_of(filed.country);
        }
    }
}
