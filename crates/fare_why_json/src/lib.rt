//! The answer for programs of what would make a trip cheaper, as JSON: the compact text of a JSON value, and LF. The
//! value is defined in `specs/WhyData` by what the plain text is defined by.
//!
//! - `telling`: the reasons as they are spelled (`specs/Spelled`);
//! - `answering`: the answer over a book;
//! - `laws`: the plain text is made of its members, and it is read back as its value.
#![tactic(auto)]

mod answering;
mod laws;
mod telling;

pub use answering::why_json;
pub use laws::{why_is_plain, why_is_read_back};
