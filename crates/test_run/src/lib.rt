//! The whole program over objects in memory: what it writes and ends in for sources known from outside. The crate has
//! tests and nothing else.
#![tactic(auto)]

#[cfg(test)]
mod tests;
