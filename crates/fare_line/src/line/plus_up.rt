/// What the price of a unit has on top of the sum of its amounts.
#[derive(Clone, Copy, Debug)]
pub struct PlusUp {
    /// The unit, 1 to `MOST_SECTORS`.
    pub unit: u8,
    /// The difference in hundredths of a NUC, at most nine digits before the point.
    pub amount: u64,
}

/// A plus-up that stands in room that is not yet used.
impl Default for PlusUp {
    fn default() -> PlusUp {
        PlusUp { unit: 1, amount: 0 }
    }
}
