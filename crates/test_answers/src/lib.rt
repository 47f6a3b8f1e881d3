//! Constructions, the first ten, audits, the book of editions and quotations, by their public calls on worked trips. The
//! crate has tests and nothing else.
#![tactic(auto)]

#[cfg(test)]
mod tests;
