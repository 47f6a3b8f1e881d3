//! Families of trips that are hard to search, each hard in a way of its own: their best constructions by several workers,
//! beside those of all that are lawful, or beside what a separate plain program finds; and their first ten. The crate has
//! tests and nothing else.
#![tactic(auto)]

#[cfg(test)]
mod tests;
