//! How many bytes the sources of commands may hold; a tariff, or an array of itineraries, is `MOST_TEXT` at most.

use fare_ports::MOST_TEXT;

/// The most bytes of an itinerary.
pub const MOST_ITINERARY: u32 = 65_536;

/// The most bytes of an itinerary's first line and the tariff that prices it.
pub const MOST_PRICED: u32 = MOST_ITINERARY + MOST_TEXT;
