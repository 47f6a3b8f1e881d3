//! Cities and the currencies of countries, found by their keys.

ghost use Rattle.std.specs.Prelude.{◌≡◌, IfSome};
ghost use Rattle.std.specs.Option.{option_copied};
ghost use Rattle.fare_records.specs.Record.{IsCurrency};
ghost use Rattle.fare_tariff.specs.Filed.{IsFiledCity};
ghost use Rattle.fare_tariff.specs.Lookup.{first_some, city_in, currency_in, city_record, currency_of};

use crate::edition::Edition;
use fare_codes::{City, Country};
use fare_index::Key;
use fare_records::{CityRec, CurRec, Filed, Record};

impl Edition {
    /// The record of a city; nothing means that no record has it as its key.
    pub fn city(&self, c: City) -> Option<&CityRec>
        ensures record { option_copied result ≡ city_record self.now c }
        ensures filed { IfSome result (λ r. IsFiledCity self.now c r.now) }
    {
        city_record(self.filed(), c)
    }

    /// The record of a country's currency; nothing means that no record has the country as its key.
    pub fn currency_of(&self, c: Country) -> Option<&CurRec>
        ensures record { option_copied result ≡ currency_of self.now c }
        ensures in_range { IfSome result (λ r. IsCurrency r.now.roe r.now.decimals r.now.unit) }
    {
        currency_record(self.filed(), c)
    }
}

/// The city that a record files, where it is this one.
pub(crate) fn city_in(city: City, one: &Record) -> Option<&CityRec>
    ensures { option_copied result ≡ city_in city one.now }
{
    match one {
        Record::City(filed) => {
            if filed.code.is(city) {
                Some(filed)
            } else {
                None
            }
        }
        _ => None,
    }
}

/// The record of a city.
#[tactic(auto, using(crate::proofs::FoundByKey::city_found))]
pub(crate) fn city_record(filed: &Filed, city: City) -> Option<&CityRec>
    ensures { option_copied result ≡ first_some (city_in city) filed.now }
{
    match filed.find(&Key::City(city)) {
        None => None,
        Some(one) => city_in(city, one),
    }
}

/// The currency that a record files, where it is that of this country.
pub(crate) fn currency_in(country: Country, one: &Record) -> Option<&CurRec>
    ensures record { option_copied result ≡ currency_in country one.now }
    ensures in_range { IfSome result (λ r. IsCurrency r.now.roe r.now.decimals r.now.unit) }
{
    match one {
        Record::Cur(filed) => {
            if filed.country.is(country) {
                Some(filed)
            } else {
                None
            }
        }
        _ => None,
    }
}

/// The currency of a country.
#[tactic(auto, using(crate::proofs::FoundByKey::currency_found))]
pub(crate) fn currency_record(filed: &Filed, country: Country) -> Option<&CurRec>
    ensures record { option_copied result ≡ first_some (currency_in country) filed.now }
    ensures in_range { IfSome result (λ r. IsCurrency r.now.roe r.now.decimals r.now.unit) }
{
    match filed.find(&Key::Currency(country)) {
        None => None,
        Some(one) => currency_in(country, one),
    }
}
