//! Whether a list of parts is a lawful construction of a trip, and else the first rule that it breaks.
//!
//! - `limits`: how many parts a construction holds at most;
//! - `parts`: the parts by their places, the places of a unit's parts, their fares and directions;
//! - `rules`: the rules of a lawful construction, one file a subject, and the first that is broken.
//!
//! Each of these stands on those above it.
#![tactic(auto)]

mod limits;
mod parts;
mod rules;

pub use fare_rules::{Broken, Part};
pub use limits::MOST_PARTS;
pub use parts::countries::{country, is_same_country, lie_together};
pub use parts::direction::{heads_home, is_back, is_back_in, priced_back};
pub use parts::fares::{fare_of, holds_ow, is_ow};
pub use parts::own::{first_of, last_of, origin, own};
pub use parts::places::{end_of, greatest_unit, is_same_unit, part_at, start_of, unit_of};
pub use rules::combine::is_uncombined;
pub use rules::crossing::is_crossed;
pub use rules::lawful::first_broken;
pub use rules::shape::{closes, has_gap_before, is_open_jaw};
pub use rules::stays::is_mistimed_in;
