use fare_codes::{Cabin, Carrier, City, Day, Over};

/// A sector: the way from the point before it to the next one.
#[derive(Clone, Copy, Debug)]
pub struct Sector {
    /// The city that it reaches.
    pub to: City,
    /// The carrier; without effect where it is a surface sector.
    pub carrier: Carrier,
    /// The day of departure.
    pub day: Day,
    /// The cabin; without effect where it is a surface sector.
    pub cabin: Cabin,
    /// The ocean that it is marked to cross.
    pub over: Over,
    /// Whether the traveller stops over where it ends; else the point is a transfer.
    pub stop: bool,
    /// Whether the traveller makes it by own means.
    pub surface: bool,
}

/// A sector that stands in room that is not yet used.
impl Default for Sector {
    fn default() -> Sector {
        Sector {
            to: City::default(),
            carrier: Carrier::default(),
            day: Day::default(),
            cabin: Cabin::Y,
            over: Over::Unmarked,
            stop: true,
            surface: false,
        }
    }
}
