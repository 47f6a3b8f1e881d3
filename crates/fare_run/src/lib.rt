//! The whole program over any source, sink, store, door and gate. What it answers is defined in `specs/` (`Outcome`).
//!
//! - `serve`: the command that uses the door; the others stand in `fare_commands`;
//! - `workers`: how many share a search; `limits`: how many bytes the source may hold; `answer`: the command by its
//!   name; `json_fault`: a refusal in JSON; `told`: the answer, or the refusal with the text that tells it;
//! - `program`: the whole, from its words to what it ends in.
#![tactic(auto)]

mod answer;
mod json_fault;
mod limits;
mod program;
mod serve;
mod told;
mod workers;

pub use fare_commands::{Exit, fault_text};
pub use program::run;
