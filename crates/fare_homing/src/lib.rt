//! Homing: what the parts behind each point of a trip cost at least until a pricing unit comes home there, since what
//! begins must also end. No call takes memory.
//!
//! - `reaching`: the least by which a point is reached, over steps to the points before it;
//! - `whole`: what one unit costs at least that begins behind a point;
//! - `between`: what is behind a point until a unit closes, by a part between its first and its last;
//! - `standing`: what is behind each point until a unit comes home that stands in the city of one point;
//! - `rule_sets`: the sets of rules that the parts before a point may bar;
//! - `onward`: what is behind each point where no unit is open, by the fares that are barred there;
//! - `homing`: the numbers of a trip;
//! - `rests`: what is behind each point where no unit is open, without the fares of some rules;
//! - `turns`: what the circle minima of a trip may be;
//! - `steps`: whether no more is barred behind a part than its rule bars;
//! - `barring`: the numbers of a trip with what is behind each point by what is barred.
//!
//! Each of these stands on those above it. What one part costs at least is told by `fare_legs`.
#![tactic(auto)]

mod barring;
mod between;
mod homing;
mod onward;
mod reaching;
mod rests;
mod rule_sets;
mod standing;
mod steps;
mod turns;
mod whole;

pub use barring::add_barred;
pub use fare_legs::{
    Ceiling, Floor, GREATEST_FLOOR, MOST_LONELY, MOST_RULES, MOST_SETS, NOTHING, added, are_near,
    day_behind, greater, is_rule_of, is_too_dear, lesser, number_at, paid_with, rule_at,
};
pub use homing::{
    Bar, Homing, Standing, begun_from, cell, closing_from, jaw_from, lie_near, make_homing,
    remake_barred, unknown_homing,
};
pub use onward::{Onward, Onwards, next_set};
pub use turns::greatest_turn;
