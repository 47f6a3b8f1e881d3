//! Answers of a separate program that follows the rules alone: editions and trips as texts, with what each fare costs
//! on each span, and what lists of parts cost or break. The crate has tests and nothing else.
#![tactic(auto)]

#[cfg(test)]
mod tests;
