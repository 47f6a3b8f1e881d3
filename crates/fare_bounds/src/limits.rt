//! How great the numbers of the rests can be.

/// What one entry costs at least is below this many hundredths: twice the greatest fare.
pub const COST_LIMIT: u64 = 2_000_000_000;
