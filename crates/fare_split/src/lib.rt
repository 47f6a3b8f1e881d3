//! The search shared out among workers: each searches its share of all pieces of the first-part choices, and one word
//! that all share holds the least price that any of them found.
//!
//! - `word`: the shared word, and what a seat at it knows;
//! - `lane`: a seat at the word as the bound of a search;
//! - `shares`: about how much work the first-part choices are;
//! - `pieces`: the pieces of the workers, ranges of the first-part choices with about as much work each;
//! - `worker`: one worker, and its search at its seat;
//! - `running`: the run of one worker;
//! - `seating`: the workers, each with a seat;
//! - `threads`: the runs of all workers, each in a thread of its own;
//! - `earliest`: the earliest of what was found;
//! - `settling`: what was found in each piece, by what all workers found of their shares there;
//! - `opening`: the word, with its first seat;
//! - `sharing`: how many workers share a search;
//! - `prepared`: all that a search on some workers needs, and the search;
//! - `turnstile`: a gate that counts the workers;
//! - `quoter`: the quoter that shares its search out.
//!
//! Each of these stands on those above it.
#![tactic(auto)]

mod earliest;
mod lane;
mod opening;
mod pieces;
mod prepared;
mod quoter;
mod running;
mod seating;
mod settling;
mod shares;
mod sharing;
mod threads;
mod turnstile;
mod word;
mod worker;

pub use prepared::Prepared;
pub use quoter::SplitQuoter;
pub use sharing::LEAST_SHARED_WORK;
pub use turnstile::Turnstile;

#[cfg(test)]
mod tests;
