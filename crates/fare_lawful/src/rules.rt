//! The 22 rules of a lawful construction, and the first one that a list of parts breaks.
//!
//! - `cover`: Cover, Numbering and Record, which ask of places, numbers and fares alone;
//! - `crossing`: no unit crosses another;
//! - `shape`: one way fares alone, chained and closed units, open jaws;
//! - `part_rules`: the rules that ask one test of each part;
//! - `stays`, `combine`: the stay of a unit, and which fares may be combined;
//! - `unit_rules`: the rules that ask one test of each unit;
//! - `amounts`: which parts have an amount;
//! - `lawful`: all of them, in their order.

pub(crate) mod amounts;
pub(crate) mod combine;
pub(crate) mod cover;
pub(crate) mod crossing;
pub(crate) mod first;
pub(crate) mod lawful;
pub(crate) mod part_rules;
pub(crate) mod shape;
pub(crate) mod stays;
pub(crate) mod unit_rules;
