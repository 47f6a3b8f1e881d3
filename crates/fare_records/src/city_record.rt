use fare_codes::{Area, City, Country};

/// A city that the edition knows: its country and its area.
#[derive(Clone, Copy, Debug)]
pub struct CityRec {
    /// The city; the key.
    pub code: City,
    /// Its country.
    pub country: Country,
    /// Its area of the world.
    pub area: Area,
}
