//! Searches that are shared out among workers: trips whose best construction is known, by every number of workers. The
//! crate has tests and nothing else.
#![tactic(auto)]

#[cfg(test)]
mod tests;
