//! Laws of the codes in a line: each is in its form, by its type.

ghost use Rattle.std.specs.Prelude.{◌≡◌, true, Option, None};
ghost use Rattle.fare_codes.specs.Codes.{is_carrier, is_city};
ghost use Rattle.fare_line.specs.Line.{is_gap, is_pair, is_rule};

use fare_codes::{Carrier, City, RuleId};
use fare_line::Letter;

/// A city is in its form.
pub(crate) fn city_has_form(city: City)
    ensures { is_city city ≡ true }
{
    let _text = city.text();
}

/// A carrier is in its form.
pub(crate) fn carrier_has_form(carrier: Carrier)
    ensures { is_carrier carrier ≡ true }
{
    let _text = carrier.text();
}

/// A rule is nothing or an id in its form.
pub(crate) fn rule_has_form(rule: Option<RuleId>)
    ensures { is_rule rule ≡ true }
{
    match rule {
        None => (),
        Some(id) => {
            let _text = id.text();
        }
    }
}

/// A gap is nothing or leads to a city in its form.
pub(crate) fn gap_has_form(gap: Option<City>)
    ensures { is_gap gap ≡ true }
{
    match gap {
        None => (),
        Some(city) => city_has_form(city),
    }
}

/// A pair is nothing or two cities in their form, behind a letter that isn't empty.
pub(crate) fn pair_has_form(letter: Letter, pair: Option<(City, City)>)
    requires { letter ≡ Letter.Bare → pair ≡ None }
    ensures { is_pair letter pair ≡ true }
{
    match (letter, pair) {
        (_, None) | (Letter::Bare, _) => (),
        (Letter::Mileage(_), Some((first, second))) => {
            city_has_form(first);
            city_has_form(second);
        }
    }
}
