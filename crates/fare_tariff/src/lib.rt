//! Tariff editions: what makes a list of filed records valid, and the look-ups that the rules ask. An edition is seen as
//! its number, its effective day and its list of records; each look-up answers as if it searched that list. The records
//! are those of `fare_records`.
//!
//! - `edition`: an edition, which is valid by its type;
//! - `check`: each kind of fault as its own test, whether a list of records has none, and its first fault;
//! - `look_up`: cities, currencies, fares, rules and mileages, each found by its key;
//! - `laws`: what follows of every edition, with nothing to run.
#![tactic(auto)]

mod check;
mod edition;
mod laws;
mod look_up;

pub use check::{CheckFault, CheckKind, fault_at, has_kind, is_unknown_city};
pub use edition::Edition;
pub use fare_records::{
    CityRec, CurRec, EmaRec, FareKey, FareRec, Filed, FiledRule, MOST_DAYS, MOST_FARES_BETWEEN,
    MOST_MILES, MOST_NAMES, MOST_PLACES, MOST_RECORDS, MOST_STOPS, MOST_TRANSFERS, MileRec, Names,
    PairRec, Record, RuleList, RuleRec, Terms, overlap_is_a_shared_day, same_records,
};
pub use laws::{fare_of_a_day_is_one, fares_come_in_turn};
