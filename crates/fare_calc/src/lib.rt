//! What a quotation answers of a lawful construction: its calculation line, its worksheet, and the text with both.
//!
//! - `priced`: a lawful construction with its price;
//! - `part_sheet`, `numbered_unit`: how a part and a unit are priced (`specs/PartSheets`, `specs/UnitSheets`);
//! - `home`: the currency of the country where the trip begins, which always has one;
//! - `sheets`: all of this of one construction, each figure found once (`specs/Sheets`); each text is made from it;
//! - `composing`: the line of a construction, from its sectors, parts and units (`specs/LineOf`);
//! - `worksheet`: how its parts, its units and its total come about, one line for each step (`specs/Worksheet`);
//! - `answer`: the edition line, and then the line and the worksheet, or that there is no fare (`specs/Answer`).
//!
//! The line itself, its one text and the reader of that text are those of `fare_line`, handed on here.
#![tactic(auto)]

mod answer;
mod composing;
mod home;
mod keeping;
mod numbered_unit;
mod part_sheet;
mod priced;
mod sheets;
mod worksheet;

pub use answer::{answer_text, no_fare_text, priced_text, push_edition, push_line, push_no_fare};
pub use composing::{line_by, line_of};
pub use fare_line::{
    BadLine, Letter, Line, LinePart, LineSector, PlusUp, print_line, read_line, text_tells,
};
pub use home::home_has_a_currency;
pub use numbered_unit::NumberedUnit;
pub use part_sheet::PartSheet;
pub use priced::Priced;
pub use sheets::Sheets;
pub use worksheet::worksheet_text;
