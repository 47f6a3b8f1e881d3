//! The audit of a presented line: whether a calculation line that someone else wrote is lawful for a trip, and by how
//! much it is above the least price; or the first thing that is wrong with it.
//!
//! - `verdict`: what an audit answers, and its text (`specs/Verdict`, `specs/VerdictText`);
//! - `legs`, `differing`: the sectors of a line, and the first at which it and a trip differ (`specs/Legs`);
//! - `filing`: the FARE records of a line's parts, and the construction of all (`specs/Filing`);
//! - `figures`: the line beside the one of its construction (`specs/Figures`);
//! - `auditing`: the five steps of an audit, of which the first that applies decides;
//! - `fault`, `reading`: the line and the trip that a JSON text asks to be audited (`specs/AuditText`);
//! - `laws`: what follows of every audit, with nothing to run.
#![tactic(auto)]

mod auditing;
mod differing;
mod fault;
mod figures;
mod filing;
mod laws;
mod legs;
mod reading;
mod verdict;

pub use auditing::audit;
pub use fault::AuditFault;
pub use laws::{construction_is_one, price_is_best_and_over, verdict_is_one};
pub use reading::read_audit;
pub use verdict::{Verdict, verdict_text};
