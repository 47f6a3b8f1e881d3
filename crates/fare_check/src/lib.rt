//! Every fault of a tariff text at once. The first is the one that reading the text as an edition answers, and there is
//! none exactly where the text stands for an edition. What the faults of a text are, and the sentence, the line and the
//! text that tell them, is defined in `specs/` (`Faults`, `Shapes`, `FieldNames`, `Sentences`, `CheckText`).
//!
//! - `records`: the records of a text that can be read;
//! - `field_name`, `shape`: the names and the forms of fields, and the shapes of records;
//! - `grounds`, `sentence`: what is wrong with a record, in words;
//! - `line`, `report`: the line of a fault, and the report of which the first lines are shown;
//! - `reading`: the faults of reading;
//! - `faulty`, `beside`: the records that have a fault beside one another, found on all processors, and what tells it;
//! - `checked`: the check of a text, and its law; `words`: the sentence of one fault.
#![tactic(auto)]

mod beside;
mod checked;
mod faulty;
mod field_name;
mod grounds;
mod line;
mod reading;
mod records;
mod report;
mod sentence;
mod shape;
mod words;

pub use checked::{Checked, check_text, first_fault_is_the_editions};
pub use words::tariff_words;
