use fare_tariff::Edition;

/// What compares trips.
#[derive(Clone, Copy)]
pub struct Comparer<'e, Q> {
    /// The one edition.
    pub old: &'e Edition,
    /// The other edition; it may be the same.
    pub new: &'e Edition,
    /// What finds the best construction of each trip in each edition.
    pub quoter: &'e Q,
    /// The most threads on which items are answered side by side.
    pub threads: usize,
}
