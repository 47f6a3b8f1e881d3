//! The limits that several crates share, each once: those of this crate's own amounts, and those that the words of the
//! command line share with what they ask for.

/// A mileage surcharge is at most this many hundredths of the fare.
pub const MOST_SURCHARGE: u32 = 25;

/// A currency's amounts have at most this many decimals.
pub const MOST_DECIMALS: u8 = 2;

/// The greatest unit to which a currency's amounts are rounded; the least is 1.
pub const MOST_UNIT: u32 = 10_000;

/// The greatest number of an edition; the least is 1.
pub const LAST_EDITION: u32 = 99_999;

/// A trip has at most this many sectors, and at least one; so has a drill.
pub const MOST_SECTORS: usize = 16;

/// A search is shared by at most this many workers, and has at least one.
pub const MOST_WORKERS: u32 = 16;

/// At most this many of a trip's lawful constructions are told, the first ones by the order of constructions.
pub const MOST_BEST: usize = 10;

/// The greatest seed of a drill; the least is 0.
pub const LAST_SEED: u32 = 2_147_483_647;

/// A drill has at most this many extra records of miles.
pub const MOST_EXTRA: u32 = 200_000;
