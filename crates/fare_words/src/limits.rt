//! How great the numbers of the options may be where nothing else bounds them, and what stands for an option that is
//! left out.

/// The workers of a search where the words name none.
pub const DEFAULT_WORKERS: u32 = 1;

/// The greatest port.
pub const MOST_PORT: u32 = 65_535;

/// The most connections that may be served.
pub const MOST_COUNT: u32 = 1_000_000;

/// The connections of a round where the words name none.
pub const DEFAULT_ROUND: u32 = 1;

/// The extra records of a drill where the words name none.
pub const DEFAULT_EXTRA: u32 = 0;
