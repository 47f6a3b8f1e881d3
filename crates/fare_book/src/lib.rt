//! The book of published editions: it is restored from the bodies that a keeper holds, a text is published in it, and
//! a day selects one of its editions. What this means is defined in `specs/`: what bodies stand for (`Editions`, and in
//! words `BodiesInWords`), what a publication answers and leaves (`Reopens`, `Publish`), when a book and its bodies
//! stand together (`Stands`), publications one after the other (`Repeats`), what a migration makes of bodies
//! (`Migration`), and what a day selects (`Selected`).
//!
//! - `book`, `select`: the book, and the edition that a day selects;
//! - `restore`: a book from the bodies of a keeper; `restore_fault`, `damage`, `damage_text`: why there is none, what
//!   can be wrong with stored bodies, and the words that tell it;
//! - `publish`: a text is published in a book; `published`, `publish_fault`: what it is published as, or why it isn't;
//! - `migrate`: the bodies of a keeper are brought into the canonical texts of their editions;
//! - `laws`: what holds of all bodies, of every list of publications and of every day.
#![tactic(auto)]

mod book;
mod damage;
mod damage_text;
mod laws;
mod migrate;
mod publish;
mod publish_fault;
mod published;
mod restore;
mod restore_fault;
mod select;

pub use book::{Book, MOST_EDITIONS};
pub use damage::Damage;
pub use laws::{bodies_in_words, repeat_is_already, selected_is_latest};
pub use publish_fault::PublishFault;
pub use published::Published;
pub use restore_fault::RestoreFault;
