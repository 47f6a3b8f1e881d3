//! Editions in which one kind of condition that rules ask is relaxed, and the laws that tie their prices and their
//! rules to those of the edition itself. What an edition becomes is defined in `specs/` (`Relax`).
//!
//! - `term`, `terms`: the seven kinds of condition, and their order;
//! - `rules`: a rule, relaxed;
//! - `records`: the records of an edition, relaxed;
//! - `relaxing`: the relaxed edition; `asking`: whether it differs from the edition itself;
//! - `ranges`: what the laws ask of an edition holds of every one;
//! - `laws`: what follows for constructions, each as the contract of a function that computes nothing.
#![tactic(auto)]

mod asking;
mod laws;
mod ranges;
mod records;
mod relaxing;
mod rules;
mod term;
mod terms;

pub use asking::asks;
pub use laws::{
    broken_rule_is_its_own, lawful_stays_lawful, price_stays_the_same, relaxed_is_an_edition,
    unasked_stays_the_same,
};
pub use ranges::rules_are_in_range;
pub use relaxing::relaxed;
pub use term::{TERMS, Term};
pub use terms::all_terms;
