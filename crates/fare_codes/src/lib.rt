//! The codes of fare construction: places, carriers, rules, days, amounts and the small enums, each with the one text
//! that stands for it. A contract sees a code as its text, and an amount as its number of hundredths.
//!
//! - Letters and digits: `City`, `Country`, `Currency`, `Carrier` and `RuleId`.
//! - Words: `Area`, `Indicator`, `Over`, `Cabin`, `Kind` and `Mode`.
//! - Days: `Day`, `MonthDay` and `Season`.
//! - Numbers: `Nuc`, `FareAmount`, and the plain numbers and rates that records write.
//! - Amounts: `surcharged` and `convert`.
//! - Limits: how great the numbers may be that several crates speak of.
//!
//! Each `read` answers the one value whose text the bytes are, or nothing; each `text` writes it. No call takes memory.
#![tactic(auto)]

mod amounts;
mod area;
mod cabin;
mod calendar;
mod carrier;
mod city;
mod country;
mod currency;
mod day;
mod decimals;
mod fare_amount;
mod indicator;
mod kind;
mod limits;
mod mode;
mod month_day;
mod nuc;
mod numbers;
mod over;
mod rule_id;
mod season;
mod texts;

pub use amounts::{convert, greater, surcharged};
pub use area::Area;
pub use cabin::Cabin;
pub use carrier::Carrier;
pub use city::City;
pub use country::Country;
pub use currency::Currency;
pub use day::Day;
pub use decimals::{RATE_LIMIT, rate_text, read_rate};
pub use fare_amount::FareAmount;
pub use indicator::Indicator;
pub use kind::Kind;
pub use limits::{
    LAST_EDITION, LAST_SEED, MOST_BEST, MOST_DECIMALS, MOST_EXTRA, MOST_SECTORS, MOST_SURCHARGE,
    MOST_UNIT, MOST_WORKERS,
};
pub use mode::Mode;
pub use month_day::MonthDay;
pub use nuc::{FARE_LIMIT, NUC_LIMIT, Nuc};
pub use numbers::{number_text, read_number};
pub use over::Over;
pub use rule_id::RuleId;
pub use season::Season;
