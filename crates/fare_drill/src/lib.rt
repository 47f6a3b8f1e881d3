//! Drills: an edition and a trip that a seed and two sizes determine, for trying the search for the best construction,
//! and the text that sums one up.
//!
//! - `limits`: how great a drill may be;
//! - `draws`: the stream of draws of a seed;
//! - `cities`, `days`: the codes of the cities and their records, and the days;
//! - `way`, `ways`: the ways to fly between the cities, one for each fare;
//! - `fares`: the fares, each with its draw;
//! - `pair`, `pairs`: the unordered pairs of numbers;
//! - `miles`: the permitted and the ticketed point miles;
//! - `records`, `edition`: the records in their order, and the edition;
//! - `trip`: the trip;
//! - `drill`: both together;
//! - `summary`: the text.
#![tactic(auto)]

mod cities;
mod days;
mod draws;
mod drill;
mod edition;
mod fares;
mod limits;
mod miles;
mod pair;
mod pairs;
mod records;
mod summary;
mod trip;
mod way;
mod ways;

pub use drill::drill_input;
pub use summary::drill_text;
