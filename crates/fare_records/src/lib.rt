//! The filed records of a tariff, and a list of them in which each is found by its key.
//!
//! - `limits`: how many records there may be, and how great their numbers;
//! - `city_record`, `currency_record`, `fare_record`, `rule_record`, `pair_record`, `mileage_record`, `allowance_record`:
//!   what each kind files, with its ranges; `filed_rule`: a rule with its id; `record`: one of them all;
//! - `fare_key`, `terms`, `names`: a fare's key, a rule's terms and its lists of names;
//! - `fields`, `equality`: when two fields of a record, or two records, are the same;
//! - `seasons`: when two seasons share a day;
//! - `keyed`: the key of a record;
//! - `filed`: a list of records with the places of their keys, and `guesses`, where that of a city or a rule may stand.
#![tactic(auto)]

mod allowance_record;
mod city_record;
mod currency_record;
mod equality;
mod fare_key;
mod fare_record;
mod fields;
mod filed;
mod filed_rule;
mod guesses;
mod keyed;
mod limits;
mod mileage_record;
mod names;
mod pair_record;
mod record;
mod rule_record;
mod seasons;
mod terms;

pub use allowance_record::EmaRec;
pub use city_record::CityRec;
pub use currency_record::CurRec;
pub use equality::same_records;
pub use fare_key::FareKey;
pub use fare_record::FareRec;
pub use fields::{same_pairs, same_rules};
pub use filed::Filed;
pub use filed_rule::FiledRule;
pub use guesses::{spelled_city, spelled_rule};
pub use limits::{
    MOST_DAYS, MOST_FARES_BETWEEN, MOST_MILES, MOST_NAMES, MOST_PLACES, MOST_RECORDS, MOST_STOPS,
    MOST_TRANSFERS,
};
pub use mileage_record::MileRec;
pub use names::{Names, RuleList};
pub use pair_record::PairRec;
pub use record::Record;
pub use rule_record::RuleRec;
pub use seasons::{overlap_is_a_shared_day, seasons_overlap};
pub use terms::Terms;
