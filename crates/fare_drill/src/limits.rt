//! How many cities a drill has beside those of its trip.

/// There is an extra city for each two letters.
pub(crate) const EXTRA_CITIES: u32 = 26 * 26;
