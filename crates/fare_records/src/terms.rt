/// What a rule asks of a fare component and of its pricing unit.
#[derive(Clone, Copy, Debug, PartialEq, Eq)]
pub struct Terms {
    /// The greatest number of interior stopovers in a fare component.
    pub stops: u32,
    /// The greatest number of interior transfers in a fare component.
    pub transfers: u32,
    /// The least number of days from the sale day to the first day of travel.
    pub advance: u32,
    /// The least stay in days.
    pub min_stay: u32,
    /// The greatest stay in days.
    pub max_stay: u32,
    /// Whether a mileage surcharge above 0 is allowed.
    pub excess: bool,
}
