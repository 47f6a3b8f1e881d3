use fare_codes::MOST_SECTORS;

/// How many parts a construction holds at most: one for each sector of a trip.
pub const MOST_PARTS: usize = MOST_SECTORS;
