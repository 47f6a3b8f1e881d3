//! Cities, rules and countries that a record names and no record files.

ghost use Rattle.std.specs.Prelude.{◌≡◌, true, false, is_none};
ghost use Rattle.std.specs.List.{list_any};
ghost use Rattle.std.specs.Option.{option_to_list};
ghost use Rattle.fare_tariff.specs.Check.{is_unknown_city, is_one_unknown, names_unknown_city, is_unknown_rule};
ghost use Rattle.fare_tariff.specs.Check.{names_unknown_rule, names_unknown_currency};
ghost use Rattle.fare_tariff.specs.Faulty.{names_unknown};
ghost use Rattle.fare_tariff.specs.Lookup.{first_some, rule_in, currency_in};

use crate::look_up::city_in;
use fare_codes::{City, Country, RuleId};
use fare_index::Key;
use fare_records::{Filed, Record};

/// Whether the record at which a city's may stand is its record.
fn is_guessed(filed: &Filed, city: City) -> bool
    ensures { result ≡ true → is_unknown_city filed.now city ≡ false }
{
    match filed.guess(&Key::City(city)) {
        None => false,
        Some(one) => city_in(city, one).is_some(),
    }
}

/// Whether no record has the key of a city.
fn has_no_place(filed: &Filed, city: City) -> bool
    ensures { result ≡ is_unknown_city filed.now city }
{
    filed.first(&Key::City(city)).is_none()
}

/// Whether a city has no record.
pub fn is_unknown_city(filed: &Filed, city: City) -> bool
    ensures { result ≡ is_unknown_city filed.now city }
{
    if is_guessed(filed, city) {
        return false;
    }
    has_no_place(filed, city)
}

/// Whether a via field names a city that has no record.
fn is_unknown_via(filed: &Filed, via: &Option<City>) -> bool
    ensures { result ≡ list_any (is_unknown_city filed.now) (option_to_list via.now) }
{
    match via {
        None => false,
        Some(city) => is_unknown_city(filed, *city),
    }
}

/// Whether one of two cities or of a via field has no record.
#[tactic(auto, unfolding(crate::specs::Check::is_one_unknown))]
fn is_one_unknown(filed: &Filed, a: City, b: City, via: &Option<City>) -> bool
    ensures { result ≡ is_one_unknown filed.now a b via.now }
{
    is_unknown_city(filed, a) || (is_unknown_city(filed, b) || is_unknown_via(filed, via))
}

/// Whether a record names a city that has no record.
pub(crate) fn names_unknown_city(filed: &Filed, one: &Record) -> bool
    ensures { result ≡ names_unknown_city filed.now one.now }
{
    match one {
        Record::Fare(r) => is_one_unknown(filed, r.from, r.to, &None),
        Record::Mpm(r) => is_one_unknown(filed, r.from, r.to, &None),
        Record::Tpm(r) => is_one_unknown(filed, r.from, r.to, &None),
        Record::Ema(r) => is_one_unknown(filed, r.from, r.to, &r.via),
        _ => false,
    }
}

/// Whether a rule has no record.
fn is_unknown_id(filed: &Filed, id: RuleId) -> bool
    ensures { result ≡ is_none (first_some (rule_in id) filed.now) }
{
    filed.first(&Key::Rule(id)).is_none()
}

/// Whether a rule field names a rule that has no record.
fn is_unknown_rule(filed: &Filed, rule: &Option<RuleId>) -> bool
    ensures { result ≡ is_unknown_rule filed.now rule.now }
{
    match rule {
        None => false,
        Some(id) => is_unknown_id(filed, *id),
    }
}

/// Whether a record is a fare whose rule isn't filed.
pub(crate) fn names_unknown_rule(filed: &Filed, one: &Record) -> bool
    ensures { result ≡ names_unknown_rule filed.now one.now }
{
    match one {
        Record::Fare(r) => is_unknown_rule(filed, &r.rule),
        _ => false,
    }
}

/// Whether a country has no currency.
fn is_unknown_country(filed: &Filed, country: Country) -> bool
    ensures { result ≡ is_none (first_some (currency_in country) filed.now) }
{
    filed.first(&Key::Currency(country)).is_none()
}

/// Whether a record is a city whose country has no currency.
pub(crate) fn names_unknown_currency(filed: &Filed, one: &Record) -> bool
    ensures { result ≡ names_unknown_currency filed.now one.now }
{
    match one {
        Record::City(r) => is_unknown_country(filed, r.country),
        _ => false,
    }
}

/// Whether a record names a city, a rule or a country that isn't filed.
pub(crate) fn names_unknown(filed: &Filed, one: &Record) -> bool
    ensures { result ≡ names_unknown filed.now one.now }
{
    names_unknown_city(filed, one)
        || (names_unknown_rule(filed, one) || names_unknown_currency(filed, one))
}
