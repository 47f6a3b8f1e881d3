//! Itineraries: what a traveller wants to fly, read from its texts, with the first fault of one that is none.
//! A trip is seen as its sale day, its first city and its sectors; none of its calls but those of JSON takes memory.
#![tactic(auto)]

mod fault;
mod fault_text;
mod itinerary_text;
mod members;
mod pieces;
mod place;
mod sector;
mod short_line;
mod texts;
mod trip;
mod written;

pub use fault::{Member, TripFault};
pub use itinerary_text::{read_json, read_trip, trip_of};
pub use sector::Sector;
pub use short_line::read_short;
pub use trip::Trip;
pub use written::{text_tells, trip_text};
