//! The first constructions of a trip by Order that were found, up to ten of them, each with its price.
//!
//! - `best_list`: their list, and what it takes in.
#![tactic(auto)]

mod best_list;

pub use best_list::BestList;
