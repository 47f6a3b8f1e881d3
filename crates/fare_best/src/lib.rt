//! The first ten: the first lawful constructions of a trip by Order, up to ten of them, found by walks that leave out
//! what costs more than a limit, or can't be before the last one wanted.
//!
//! - `walking`: what a walk wants where the first few are asked for;
//! - `first`: the first of all, and the law that they are one list.
//!
//! Each of these stands on those above it.
#![tactic(auto)]

mod first;
mod walking;

pub use fare_ranking::BestList;
pub use first::{first_k, first_k_is_one};
