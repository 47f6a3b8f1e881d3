//! How many records an edition has, and how great the numbers of records are.

/// An edition has at most this many records between its HEAD and its END.
pub const MOST_RECORDS: usize = 400_000;

/// A list has at most this many places of which the number of each record takes four bytes.
pub const MOST_PLACES: usize = 4_294_967_294;

/// An edition has at most this many fares of one from, to and global indicator.
pub const MOST_FARES_BETWEEN: usize = 64;

/// A record states at most this many miles.
pub const MOST_MILES: u32 = 99_999;

/// A rule allows at most this many interior stopovers in a fare component.
pub const MOST_STOPS: u32 = 16;

/// A rule allows at most this many interior transfers in a fare component.
pub const MOST_TRANSFERS: u32 = 16;

/// A rule states its advance purchase and its least and greatest stay in at most this many days.
pub const MOST_DAYS: u32 = 999;

/// A rule lists at most this many rules with which it may be combined in a way.
pub const MOST_NAMES: usize = 64;
