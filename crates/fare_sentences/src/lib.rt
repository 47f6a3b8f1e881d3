//! The words of faults: a sentence for each broken rule, for each verdict of an audit, and for each refusal that has a
//! JSON form. A sentence is ASCII without quotation marks and backslashes, and has no stop at its end.
//!
//! - `sentence`: a number with what stands before and behind it;
//! - `broken_words`, `trip_words`, `verdict_sentences`: broken rules, faults of itineraries, verdicts (`specs/BrokenWords`,
//!   `TripWords`, `VerdictWords`);
//! - `fault`, `refusals`: the refusals, each with its plain line and its sentence (`specs/FaultWords`);
//! - `audit_fault`: why a text asks for no audit, told by the text itself (`specs/AuditFault`).
//!
//! The sentences of the faults of a tariff text are those of `fare_check`.
#![tactic(auto)]

mod audit_fault;
mod broken_words;
mod fault;
mod refusals;
mod sentence;
mod trip_words;
mod verdict_sentences;

pub use audit_fault::fault_of_audit;
pub use broken_words::push_broken;
pub use fault::{Fault, OneMethod};
pub use refusals::{fault_text, fault_words};
pub use verdict_sentences::verdict_words;
