//! The answers of the desk for programs, as JSON. Each answer is the compact text of a JSON value, and LF; the value is
//! defined in `specs/` by the things that the plain text is defined by: the quotation of a trip (`QuotationData`,
//! `Quotation`), its first lawful constructions (`BestData`), the list of editions (`ListData`), a batch (`BatchData`),
//! an audit (`AuditData`) and a refusal (`FaultData`). `Spelled` has how the values are spelled.
//!
//! - `writing`: strings, members and amounts at the end of a text;
//! - `edition`, `part`, `sectors`, `unit`: the pieces of a quotation; `construction`: a lawful construction, from its
//!   sheets;
//! - `quoting`, `first`, `listed`, `batches`, `audits`, `fault_answer`: an answer each.
//!
//! `laws` has what follows of every answer (`Plain`): the plain text is made of its members, and a batch that is
//! written item after item is the text of its value; `reading_back` has that each is read back as its value.
//!
//! The refusals and the words of faults are those of `fare_sentences`, handed on here.
#![tactic(auto)]

mod audits;
mod batches;
mod construction;
mod edition;
mod fault_answer;
mod first;
mod laws;
mod listed;
mod part;
mod quoting;
mod reading_back;
mod sectors;
mod unit;
mod writing;

pub use audits::audit_json;
pub use batches::{push_batch_begin, push_batch_end, push_batch_item};
pub use edition::push_edition;
pub use fare_sentences::{
    Fault, OneMethod, fault_of_audit, fault_text, fault_words, push_broken, verdict_words,
};
pub use fault_answer::{fault_json, tariff_fault_json};
pub use first::first_json;
pub use laws::{
    answer_is_plain, audit_is_plain, batch_is_compact, batch_is_plain, first_are_plain,
    list_is_plain, quotation_is_plain,
};
pub use listed::list_json;
pub use quoting::quote_json;
pub use reading_back::{
    audit_is_read_back, batch_is_read_back, first_are_read_back, list_is_read_back,
    no_fare_is_read_back, quotation_is_read_back, refusal_is_read_back,
};
pub use writing::{push_money, push_string};
