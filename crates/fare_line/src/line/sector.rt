use fare_codes::{Carrier, City};

/// A sector of a line that is flown. A surface sector is the gap of the part behind it.
#[derive(Clone, Copy, Debug)]
pub struct LineSector {
    /// The carrier.
    pub carrier: Carrier,
    /// Whether the city that it reaches is a transfer.
    pub transfer: bool,
    /// The city that it reaches.
    pub to: City,
}

/// A sector that stands in room that is not yet used.
impl Default for LineSector {
    fn default() -> LineSector {
        LineSector {
            carrier: Carrier::default(),
            transfer: false,
            to: City::default(),
        }
    }
}
