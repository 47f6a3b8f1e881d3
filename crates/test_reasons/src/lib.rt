//! What changed between two editions, what trips cost in each, and why a trip costs what it does, on worked trips. The
//! crate has tests and nothing else.
#![tactic(auto)]

#[cfg(test)]
mod tests;
