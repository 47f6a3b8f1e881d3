//! What first parts of a construction cost at least with all that may follow, and which first parts are not gone on
//! from. No call takes memory.
//!
//! - `places`: the first and the last part of a unit;
//! - `stays`: whether the rules of a unit's parts allow a stay;
//! - `ending`: whether a unit of first parts may end as it stands;
//! - `refusals`: why some first parts are not gone on from;
//! - `partial`: first parts of constructions, part by part;
//! - `joining`: whether a part may come to a unit of first parts again;
//! - `costs`: what parts cost at least;
//! - `floors`: what first parts cost at least, with all that may follow;
//! - `lasting`: what the last part of a unit that goes on costs at least;
//! - `barring`: what is behind first parts where no unit is open, without the fares that they bar;
//! - `bars`: what a unit of three parts or more costs at most in constructions up to a price;
//! - `stacking`: what is behind each point at least over the units of first parts, since what begins must end;
//! - `dear`: whether the last of first parts makes the circle minimum of its unit greater than a ceiling;
//! - `stack`: what is known of first parts by their units: what each costs at least, what is behind, and a floor;
//! - `ahead`: what is behind the part that comes next at least;
//! - `stage`: where a search stands: first parts with what is ahead of them.
//!
//! Each of these stands on those above it.
#![tactic(auto)]

mod ahead;
mod barring;
mod bars;
mod costs;
mod dear;
mod ending;
mod floors;
mod joining;
mod lasting;
mod partial;
mod places;
mod refusals;
mod stack;
mod stacking;
mod stage;
mod stays;

pub use ahead::{Ahead, ahead_of, floor_ahead, floor_with};
pub use bars::{add_bar, bar_limit, remake};
pub use floors::floor_of;
pub use partial::Partial;
pub use stack::{Stack, stack_after, stack_of};
pub use stage::Stage;
