/// What is asked of a trip.
#[derive(Clone, Copy, Debug, PartialEq, Eq)]
pub enum Asked {
    /// Its quotation.
    Quotation,
    /// So many of its best constructions.
    Best(u32),
    /// Its price, and what would make it cheaper.
    Why,
}
