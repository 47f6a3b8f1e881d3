//! Records are found by their keys.

ghost use Rattle.std.specs.Prelude.{◌≡◌, ◌<◌};
ghost use Rattle.fare_index.specs.declared.key.Key.{Key};
ghost use Rattle.fare_codes.specs.declared.nuc.TheConstants.{FARE_LIMIT};

use crate::fare_record::FareRec;
use crate::record::Record;
use fare_index::{Key, Keyed};

/// The key of the fares between a fare's cities for its indicator; a fare's amount is in its range by its type.
fn fares_key(fare: &FareRec) -> Key
    ensures key { result ≡ Key.Fares fare.now.from fare.now.to fare.now.ind }
    ensures amount { fare.now.amount < FARE_LIMIT }
{
    let _ = &fare.amount;
    Key::Fares(fare.from, fare.to, fare.ind)
}

impl Keyed for Record {
    ghost use Rattle.fare_records.specs.Keyed.{has_amount_in_range, own_key};

    ghost key_of = { own_key };

    ghost holds_of = { has_amount_in_range };

    /// That of a fare is its two cities and its indicator, so its seasons share one.
    fn key(&self) -> Key {
        match self {
            Record::City(r) => Key::City(r.code),
            Record::Cur(r) => Key::Currency(r.country),
            Record::Rule(r) => Key::Rule(r.rule().id),
            Record::Fare(r) => fares_key(r),
            Record::Mpm(r) => Key::permitted(r.from, r.to, r.ind),
            Record::Tpm(r) => Key::ticketed(r.from, r.to),
            Record::Ema(r) => Key::extra(r.from, r.to, r.ind, r.via),
        }
    }

    /// A search looks up cities, rules and fares again and again, so of these no key is made.
    fn has(&self, key: &Key) -> bool {
        match (self, key) {
            (Record::City(r), Key::City(code)) => code.is(r.code),
            (Record::Rule(filed), Key::Rule(id)) => id.is(filed.rule().id),
            (Record::Fare(r), Key::Fares(from, to, ind)) => {
                from.is(r.from) && to.is(r.to) && ind.is(r.ind)
            }
            _ => *key == self.key(),
        }
    }
}
