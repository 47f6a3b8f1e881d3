//! The words of the command line, itineraries, calculation lines, tariffs and what is wrong with them, by their public
//! calls. The crate has tests and nothing else.
#![tactic(auto)]

#[cfg(test)]
mod tests;
