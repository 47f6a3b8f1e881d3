//! The refusals that have a JSON form.

use fare_book::Damage;
use fare_codes::{City, Day};
use fare_trip::TripFault;

/// The one method that a path takes.
#[derive(Clone, Copy, Debug, PartialEq, Eq)]
pub enum OneMethod {
    /// GET
    Get,
    /// POST
    Post,
}

/// A refusal that has a JSON form, but for the first fault of a tariff text, whose sentence needs that text.
#[derive(Clone, Copy, Debug, PartialEq, Eq)]
pub enum Fault {
    /// The itinerary has this first fault; want of memory is none.
    Trip(TripFault),
    /// A batch is JSON and no array.
    NoBatch,
    /// A request for an audit is JSON and no object.
    NoRequest,
    /// A request for an audit has no trip.
    NoTrip,
    /// A request for an audit has no line that is a string.
    NoLine,
    /// So many first bytes of a presented line begin the text of some line, and no more of them do.
    BadLine(u32),
    /// The source holds more than so many bytes.
    SourceLimit(u32),
    /// A batch has more itineraries than are answered.
    BatchLimit,
    /// No edition is effective by this sale day.
    NoEdition(Day),
    /// This is the first point of the trip that the edition doesn't know.
    UnknownPlace(City),
    /// Nothing is at a path.
    NoRoute,
    /// A path takes this method alone.
    Method(OneMethod),
    /// A read of the source failed.
    ReadFault,
    /// A call of the store failed.
    KeeperFault,
    /// The stored text at this place is damaged so.
    Damaged(u32, Damage),
}
