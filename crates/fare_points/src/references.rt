ghost use Rattle.std.specs.Prelude.{◌≡◌, ◌<◌, IfSome, option_and_then};
ghost use Rattle.std.specs.Option.{option_copied};
ghost use Rattle.fare_codes.specs.Day.{month_day_of};
ghost use Rattle.fare_tariff.specs.Lookup.{fare_at, fare_number};
ghost use Rattle.fare_rules.specs.Reference.{every_carrier, key_by, amount_on, reference};

use fare_codes::{Carrier, City, Day, FARE_LIMIT, Indicator, Nuc};
use fare_tariff::{Edition, FareKey, FareRec};

/// The carrier `YY`, by which a fare is filed for every carrier.
pub fn every_carrier() -> Carrier
    ensures { result ≡ every_carrier }
{
    match Carrier::read(b"YY") {
        Some(carrier) => carrier,
        None => unreachable!(),
    }
}

/// The key of the fares of a pair of cities and an indicator by a carrier, with the class, kind and rule of a fare.
fn key_by(from: City, to: City, ind: Indicator, fare: &FareRec, carrier: Carrier) -> FareKey
    ensures { result ≡ key_by from to ind fare.now carrier }
{
    FareKey {
        from,
        to,
        ind,
        carrier,
        class: fare.class,
        kind: fare.kind,
        rule: fare.rule,
    }
}

/// A fare whose references are looked for, and how many records behind the first fare between its cities it stands, by
/// which they are mostly found without a search; any number answers the same.
#[derive(Clone, Copy)]
pub struct Likes<'a> {
    pub fare: &'a FareRec,
    pub ahead: u32,
}

/// The fare of a key on a day.
fn fare_on<'a>(edition: &'a Edition, key: &FareKey, on: Day, ahead: u32) -> Option<&'a FareRec>
    ensures { option_copied result ≡ option_and_then (fare_at edition.now)
        (fare_number edition.now key.now (month_day_of on)) }
{
    match edition.fare_ahead(key, on.month_day(), ahead) {
        None => None,
        Some(number) => edition.fare_at(number),
    }
}

/// The amount of the fare of a key on a day.
fn amount_on(edition: &Edition, key: &FareKey, on: Day, ahead: u32) -> Option<Nuc>
    ensures value { result ≡ amount_on edition.now key.now on }
    ensures bound { IfSome result (λ amount. amount < FARE_LIMIT) }
{
    match fare_on(edition, key, on, ahead) {
        None => None,
        Some(filed) => Some(filed.amount.nuc()),
    }
}

/// The reference fare of a fare, as `reference` answers it.
#[tactic(auto, unfolding(fare_rules::specs::Reference::reference))]
pub fn reference_of(
    edition: &Edition,
    from: City,
    to: City,
    ind: Indicator,
    likes: &Likes,
    on: Day,
) -> Option<Nuc>
    ensures value { result ≡ reference edition.now from to ind likes.now.fare.now on }
    ensures bound { IfSome result (λ amount. amount < FARE_LIMIT) }
{
    let (fare, ahead) = (likes.fare, likes.ahead);
    match amount_on(
        edition,
        &key_by(from, to, ind, fare, fare.carrier),
        on,
        ahead,
    ) {
        Some(amount) => Some(amount),
        None => amount_on(
            edition,
            &key_by(from, to, ind, fare, every_carrier()),
            on,
            ahead,
        ),
    }
}

/// The reference fare from a city to another for an indicator, with which a fare is compared on a day: the amount that
/// is filed there with the fare's class, kind and rule by its carrier and in season on the day, else by `YY` and in
/// season; nothing exactly where neither is.
pub fn reference(
    edition: &Edition,
    from: City,
    to: City,
    ind: Indicator,
    fare: &FareRec,
    on: Day,
) -> Option<Nuc>
    ensures value { result ≡ reference edition.now from to ind fare.now on }
    ensures bound { IfSome result (λ amount. amount < FARE_LIMIT) }
{
    reference_of(edition, from, to, ind, &Likes { fare, ahead: 0 }, on)
}
