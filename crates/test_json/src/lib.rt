//! The sentences and the answers for programs, on worked trips. The crate has tests and nothing else.
#![tactic(auto)]

#[cfg(test)]
mod tests;
