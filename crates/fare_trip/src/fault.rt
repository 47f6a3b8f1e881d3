/// A member of an itinerary's text, as faults name it.
#[derive(Clone, Copy, Debug, PartialEq, Eq, Hash)]
pub enum Member {
    /// The itinerary itself.
    Trip,
    /// The sale day.
    Sale,
    /// The first city.
    From,
    /// The list of sectors.
    Sectors,
    /// A sector itself.
    Sector,
    /// The city that a sector reaches.
    To,
    /// A sector's carrier.
    Carrier,
    /// A sector's day.
    Day,
    /// A sector's cabin.
    Cabin,
    /// The ocean that a sector is marked to cross.
    Over,
    /// Whether a sector ends in a stopover.
    Stop,
    /// Whether a sector is a surface sector.
    Surface,
}

/// Why a text or a list of sectors is no itinerary. A number is a sector's, from 1, or 0 at the top.
#[derive(Clone, Copy, Debug, PartialEq, Eq, Hash)]
pub enum TripFault {
    /// There was not enough memory to tell.
    Memory,
    /// The text is no JSON value.
    NotJson,
    /// The member is absent.
    Missing(Member, u32),
    /// The member is not in its form.
    Bad(Member, u32),
    /// There is no sector.
    NoSectors,
    /// There are this many sectors, which is more than `MOST_SECTORS`.
    TooMany(u32),
    /// The sector ends in the city where it begins.
    SameCity(u32),
    /// The sector's day is before that of the sector before it, or before the sale day.
    DatesFall(u32),
    /// The sector is a surface sector, and the first, the last or behind another surface sector.
    SurfacePlace(u32),
}
