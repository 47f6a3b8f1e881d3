//! The text of a tariff: reads it as an edition or tells its first fault, and writes an edition as its one canonical
//! text. What a text stands for is defined in `specs/`: its rows (`Rows`), what the fields of a row spell (`Head`,
//! `RecordText`, `NameList`), the whole (`TariffText`), and the one spelling of an edition (`CanonicalText`, `Lines`).
//!
//! - `rows`, `lines`: a text row by row, and line by line;
//! - `field_list`, `plain_line`: the fields of a row, taken where they stand;
//! - `head`, `record_kind`, `read_plain`, `read_rule`, `read_fare`, `name_list`, `numbers`: records from their fields;
//! - `read_text`: the whole text row by row;
//! - `pieces`, `read_pieces`: a text in pieces of whole lines, of which a long one's are read on all processors;
//! - `spelling`, `edition`: the whole text, in pieces where it can be;
//! - `write_record`, `write_names`, `canonical`: the canonical text;
//! - `laws`: it is read back as its edition, and no two editions have one;
//! - `text_fault`, `fault_text`: what is wrong with a text, and the line that tells it.
#![tactic(auto)]

mod canonical;
mod edition;
mod fault_text;
mod field_list;
mod head;
mod laws;
mod lines;
mod name_list;
mod numbers;
mod pieces;
mod plain_line;
mod read_fare;
mod read_pieces;
mod read_plain;
mod read_rule;
mod read_text;
mod record_kind;
mod rows;
mod spelling;
mod text_fault;
mod write_names;
mod write_record;

pub use canonical::{edition_text, record_line};
pub use edition::read_edition;
pub use head::{Head, Version, read_head, read_version};
pub use laws::{text_reads_back, text_tells};
pub use read_plain::counted;
pub use read_text::{Spelled, is_end, is_head, read_record};
pub use record_kind::RecordKind;
pub use rows::{Row, Rows};
pub use spelling::read_spelled;
pub use text_fault::TextFault;

#[cfg(test)]
mod tests;
