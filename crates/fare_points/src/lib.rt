//! What a span of a trip asks of an edition: the places, the global indicator of its sectors, the fares that a fare is
//! compared with, and what they make of it: a higher intermediate point and a backhaul minimum. No call takes memory.
//!
//! - `places`: the first city of a trip that the edition doesn't file;
//! - `crossings`, `stretch`: the oceans that a sector crosses, and what the sectors from a point on cross;
//! - `indicators`: the global indicators of some sectors, and of the spans from a point;
//! - `references`: the fare of another pair of cities, with which a fare is compared;
//! - `comparison`, `highers`: the pairs of points that are compared, and the higher intermediate point among them;
//! - `backhauls`: the backhaul minimum of a one way fare.
#![tactic(auto)]

mod backhauls;
mod comparison;
mod crossings;
mod highers;
mod indicators;
mod places;
mod references;
mod stretch;

pub use backhauls::{backhaul, minimum_above};
pub use comparison::is_compared;
pub use highers::higher;
pub use indicators::{indicator, indicator_of, indicators_from};
pub use places::placed;
pub use references::{Likes, every_carrier, reference, reference_of};
