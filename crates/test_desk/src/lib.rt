//! The desk behind a door, route by route. The crate has tests and nothing else.
#![tactic(auto)]

#[cfg(test)]
mod tests;
