//! Bounds for a search over constructions: the least that the rest of a trip can cost from each of its points on. No
//! call takes memory.
//!
//! - `limits`: how great the numbers can be;
//! - `costs`: what an entry of the table costs at least, and the cheapest of some;
//! - `rest`: the rests of a trip.
#![tactic(auto)]

mod costs;
mod limits;
mod rest;

pub use costs::{least_cost, lesser};
pub use limits::COST_LIMIT;
pub use rest::{Rest, begin_after, sum_of};
