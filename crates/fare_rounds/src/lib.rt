//! Connections that are served together, as one round: the requests are read in turn, all that change nothing are
//! answered side by side, then each `POST /editions` in the order of arrival, and the answers are sent in that order.
//! What a round does is defined in `specs/` (`Rounds`).
//!
//! - `entry`: what one connection brought, and its reply; `round`: the row of them;
//! - `taking`, `door_end`: the connections of a round, and how the door ended them;
//! - `viewing`: the requests that are answered side by side;
//! - `finishing`, `counts`: each `POST /editions`, the answers sent, and how many;
//! - `serving`: a whole round; `laws`: a round of one connection.
#![tactic(auto)]

mod counts;
mod door_end;
mod entry;
mod finishing;
mod laws;
mod round;
mod serving;
mod taking;
mod viewing;

pub use counts::Counts;
pub use door_end::DoorEnd;
pub use entry::Entry;
pub use laws::round_of_one;
pub use round::Round;
pub use serving::{RoundHandler, serve_round};
pub use taking::take_round;
