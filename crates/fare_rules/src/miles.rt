/// The miles of a span, and what they are compared with.
#[derive(Clone, Copy, Debug)]
pub struct Miles {
    /// The sum of the ticketed point mileages of its sectors.
    pub sum: u32,
    /// The extra mileage allowance.
    pub allowance: u32,
    /// The sum less the allowance, and at least 0.
    pub net: u32,
    /// The maximum permitted mileage between its ends.
    pub mpm: u32,
}

/// What the mileage of a span asks of a fare.
#[derive(Clone, Copy, Debug)]
pub enum Mileage {
    /// A span of one sector: there is no mileage check.
    Direct,
    /// The miles are within the maximum permitted mileage.
    Within(Miles),
    /// The miles ask for a surcharge of this many hundredths of the fare.
    Excess(u32, Miles),
    /// The sector of this number is the first without a ticketed point mileage.
    NoTpm(u32),
    /// There is no maximum permitted mileage between its ends.
    NoMpm,
    /// The miles are above the maximum permitted mileage by more than any surcharge allows.
    Over(Miles),
}
