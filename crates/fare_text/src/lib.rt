//! The writing of texts: words, codes, numbers and amounts at the end of a text, each in its one spelling.
//!
//! - `growing`: texts that take memory as they grow. After want of memory a text may hold a part of what was to be
//!   added.
//! - `short`: the texts of faults, which have room for 64 bytes and take no memory.
#![tactic(auto)]

mod growing;
mod short;

pub use growing::{
    push_code, push_decimal, push_hundredths, push_labelled, push_number, push_whole,
};
pub use short::{push_short_number, short_text};
