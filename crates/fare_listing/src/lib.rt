//! The first constructions of a trip over a book of editions: their text, and their JSON answer.
//!
//! - `texts`: the text;
//! - `json`: the JSON answer.
#![tactic(auto)]

mod json;
mod texts;

pub use json::best_json;
pub use texts::best_text;
