//! What a book of published editions answers to a trip, and what it lists of itself, as texts. Each text is defined in
//! `specs/`: the quotation of a trip (`Quotation`), its first lawful constructions (`BestText`), and the list of
//! editions (`List`).
//!
//! - `quote_fault`, `selecting`: the edition in which a trip is answered (`EditionFor`), or why there is none;
//! - `quoting`: the text of a quotation;
//! - `first_of`: the first constructions of a trip in an edition; `entries`, `listing`: the entry of each, and the text
//!   with all of them;
//! - `list`: the text that lists the editions.
#![tactic(auto)]

mod entries;
mod first_of;
mod list;
mod listing;
mod quote_fault;
mod quoting;
mod selecting;

pub use first_of::FirstOf;
pub use list::list_text;
pub use listing::first_text;
pub use quote_fault::QuoteFault;
pub use quoting::quote_text;
pub use selecting::edition_for;
