//! Legs: what one part of a pricing unit costs at least, by its place there, and what rules and references ask of the
//! unit's parts together. No call takes memory.
//!
//! - `floor`: what something costs at least, and the sum and the lesser of two;
//! - `limits`: how many rules, and how many sets of rules, are told apart;
//! - `nearness`: which cities lie near each other, and the countries of a trip's points;
//! - `barred`: fares that may not come behind some others, by their rules;
//! - `rules`: the rules of a trip's fares;
//! - `legs`: what the parts from a point cost at least, by what a part is in its unit;
//! - `ceiling`: a price above which nothing is wanted, and which parts make a circle minimum greater;
//! - `pairs`: what the first and the last part of a unit cost at least together;
//! - `owed`: what a unit of two parts owes behind its first one;
//! - `threes`: the rules of which no unit of three parts or more can have a fare;
//! - `lonely`: the rules of one way fares that don't combine with themselves.
#![tactic(auto)]

mod barred;
mod ceiling;
mod floor;
mod legs;
mod limits;
mod lonely;
mod nearness;
mod owed;
mod pairs;
mod rules;
mod threes;

pub use barred::{is_among, is_barred, is_of_rule, unless};
pub use ceiling::{Ceiling, ceiling_of, is_too_dear};
pub use floor::{Floor, GREATEST_FLOOR, NOTHING, added, greater, lesser, number_at, paid_with};
pub use legs::{LegRows, half_cost, legs_behind};
pub use limits::{MOST_RULES, MOST_SETS};
pub use lonely::{MOST_LONELY, is_rule_of, lonely_fares, rule_at};
pub use nearness::{are_near, countries_of};
pub use owed::{owed_from, raised};
pub use pairs::{Pairing, day_behind, least_pair};
pub use rules::rules_of;
pub use threes::fares_of_two;
