use fare_codes::Nuc;

/// The amount of a fare component.
#[derive(Clone, Copy, Debug)]
pub struct Amount {
    /// The fare, or that of a higher intermediate point.
    pub base: Nuc,
    /// The mileage surcharge, in hundredths of the base: 0, 5, 10, 15, 20 or 25.
    pub surcharge: u32,
    /// The base with the surcharge, rounded down.
    pub amount: Nuc,
}
