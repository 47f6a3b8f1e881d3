//! The outside in memory, HTTP, rounds of connections and a store in a file, by their public calls. The crate has tests
//! and nothing else.
#![tactic(auto)]

#[cfg(test)]
mod tests;
