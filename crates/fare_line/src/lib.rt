//! The calculation line of a construction: what a line is, the one text of each, and the reader of that text.
//! A contract sees a line as its first city, its flown sectors, its parts and plus-ups, its total and its rate.
//!
//! - `line`: a line with its sectors, parts and plus-ups; by its type it is one that some text spells (`specs/Line`);
//! - `printing`: the one text of a line, and of a letter and a fare's tag (`specs/LineText`);
//! - `reading`: the line that a text spells, or how far the text could have become one (`specs/LongestFront`).
//!   It goes from bytes (`cursor`) over `numbers`, `marks` and `pieces` to the `next` piece of a `draft`;
//!   `specs/reader` has what each of them reads.
#![tactic(auto)]

mod line;
mod printing;
mod reading;

pub use line::Line;
pub use line::part::{Letter, LinePart};
pub use line::plus_up::PlusUp;
pub use line::sector::LineSector;
pub use printing::{print_line, push_letter, push_tag};
pub use reading::{BadLine, read_line, text_tells};
