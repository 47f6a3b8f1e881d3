//! How great the numbers of the rules can be.

use fare_codes::MOST_SECTORS;

/// The greatest amount of a component, in hundredths of a NUC: the greatest fare with the greatest surcharge.
pub const MOST_AMOUNT: u64 = 1_250_000_000;

/// Every lawful price is below this many hundredths of a NUC.
pub const PRICE_LIMIT: u64 = 40_000_000_000;

/// How many points a trip can have: where it begins, and where each sector ends.
pub const MOST_POINTS: usize = MOST_SECTORS + 1;
