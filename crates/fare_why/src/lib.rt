//! What would make a trip cheaper: for each kind of condition that a rule can ask, the best construction of the edition
//! without that kind, where it costs less, with what it saves and the rule that bars it. The relaxed editions, the
//! kinds and the laws between an edition and a relaxed one are those of fare_relaxed, passed on from here.
//!
//! - `reason`, `explanation`: a reason, and the price of the best with all reasons (`Explanation`), as values;
//! - `prices`, `asked`: the price of the best beside that of an alternative, and what is asked of each search
//!   (`Asked`);
//! - `alternative`: what is cheaper without one kind of condition;
//! - `searching`, `gathering`: the searches side by side, and the reasons among what they found;
//! - `explaining`: the reasons of a trip in an edition (`Reasons`);
//! - `telling`: the text of a trip over a book (`WhyText`).
#![tactic(auto)]

mod alternative;
mod asked;
mod explaining;
mod explanation;
mod gathering;
mod prices;
mod reason;
mod searching;
mod telling;

pub use explaining::why;
pub use explanation::Why;
pub use fare_relaxed::{
    TERMS, Term, all_terms, broken_rule_is_its_own, lawful_stays_lawful, price_stays_the_same,
    relaxed, relaxed_is_an_edition, rules_are_in_range,
};
pub use reason::Reason;
pub use searching::Searches;
pub use telling::why_text;
