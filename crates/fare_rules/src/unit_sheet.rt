/// The kind of a pricing unit.
#[derive(Clone, Copy, Debug)]
pub enum UnitKind {
    /// One way.
    OW,
    /// A round trip: two half round trips of equal amounts.
    RT,
    /// A circle trip.
    CT,
    /// An open jaw.
    OJ,
}

/// How a pricing unit is priced, in hundredths of a NUC.
#[derive(Clone, Copy, Debug)]
pub struct UnitSheet {
    /// Its kind.
    pub kind: UnitKind,
    /// The sum of the amounts of its parts.
    pub sum: u64,
    /// The backhaul minimum of a one way unit or the circle minimum of a circle trip, where there is one.
    pub minimum: Option<u64>,
    /// Its price: the greater of the two.
    pub price: u64,
}
