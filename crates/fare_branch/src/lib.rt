//! The pruned search: the best construction of a trip among those that begin in a piece of the first-part choices,
//! found by a walk that leaves out what can't be before what is known. The walk serves whatever a `Seeker` looks for.
//!
//! - `bound`: what a search asks for the least price known, and tells what it finds;
//! - `own_bound`: a bound that knows no more than it was told;
//! - `pieces`: the first-part choices by their numbers, and ranges of them;
//! - `crowding`: whether more one way fares must come than first parts leave rules for;
//! - `barred`: whether the rules on stays and on combined fares bar first parts;
//! - `diving`: the steps of a dive;
//! - `descent`: a dive for a price to begin with;
//! - `seeker`: what a walk over constructions looks for;
//! - `share`: the shares of the constructions;
//! - `best_so_far`: the best of a share that was found so far, as what a walk looks for;
//! - `walking`: the walk over the constructions that begin with some parts, whatever it looks for;
//! - `opening`: what a search begins with: dives for a price, and a ceiling below it;
//! - `deepening`: a bound that dives once more where a search takes long;
//! - `plan`: what the searches of all shares stand on, and what they begin with;
//! - `searching`: the search of a piece, and of a share of each of some pieces;
//! - `quoter`: the quoter that searches all of them.
//!
//! Each of these stands on those above it.
#![tactic(auto)]

mod barred;
mod best_so_far;
mod bound;
mod crowding;
mod deepening;
mod descent;
mod diving;
mod opening;
mod own_bound;
mod pieces;
mod plan;
mod quoter;
mod searching;
mod seeker;
mod share;
mod walking;

pub use barred::is_barred;
pub use bound::{Bound, NO_PRICE};
pub use crowding::is_crowded;
pub use descent::dived_front;
pub use fare_floors::{Partial, floor_of};
pub use opening::is_far;
pub use own_bound::OwnBound;
pub use pieces::{Piece, choices};
pub use plan::{Plan, opening_price};
pub use quoter::{BranchQuoter, best_of, best_under};
pub use searching::{Finds, MOST_PIECES, kept_at, search, search_share};
pub use seeker::Seeker;
pub use share::Share;
pub use walking::walk;
