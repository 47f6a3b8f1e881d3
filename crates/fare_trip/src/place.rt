//! Where a traveller stands before a sector, and what may be wrong with the sector there.

ghost use Rattle.std.specs.Prelude.{◌≡◌, ◌+◌, ◌≤◌, ◌==◌, ◌||◌, length, false};
ghost use Rattle.fare_trip.specs.Trip.{sector_fault, sectors_fault};

use crate::fault::TripFault;
use crate::sector::Sector;
use fare_codes::{City, Day, MOST_SECTORS};

/// What stands before a sector: its number, the city and day that the way has reached, and whether by a surface sector.
#[derive(Clone, Copy)]
pub(crate) struct Place {
    pub(crate) number: u32,
    pub(crate) city: City,
    pub(crate) day: Day,
    pub(crate) behind_surface: bool,
}

impl Place {
    /// The place before the first sector.
    pub(crate) fn start(sale: Day, from: City) -> Place
        ensures { result ≡ record { number = 1; city = from; day = sale; behind_surface = false } }
    {
        Place {
            number: 1,
            city: from,
            day: sale,
            behind_surface: false,
        }
    }

    /// The place behind a sector.
    pub(crate) fn after(&self, sector: &Sector) -> Place
        requires { self.now.number ≤ MOST_SECTORS }
        ensures { result ≡ record {
          number = self.now.number + 1;
          city = sector.now.to;
          day = sector.now.day;
          behind_surface = sector.now.surface;
        } }
    {
        Place {
            number: self.number + 1,
            city: sector.to,
            day: sector.day,
            behind_surface: sector.surface,
        }
    }

    /// Whether a surface sector may not stand here: it would be the first, the last or behind another one.
    fn bars_surface(&self, total: u32) -> bool
        ensures { result ≡ ((self.now.number == 1) || (self.now.number == total) || self.now.behind_surface) }
    {
        self.number == 1 || self.number == total || self.behind_surface
    }

    /// The first fault of a sector at this place of a trip of so many sectors.
    pub(crate) fn fault(&self, total: u32, sector: &Sector) -> Option<TripFault>
        ensures { result ≡ sector_fault total self.now.number self.now.city self.now.day self.now.behind_surface
            sector.now }
    {
        if sector.to.is(self.city) {
            return Some(TripFault::SameCity(self.number));
        }
        if sector.day.number() < self.day.number() {
            return Some(TripFault::DatesFall(self.number));
        }
        if sector.surface && self.bars_surface(total) {
            return Some(TripFault::SurfacePlace(self.number));
        }
        None
    }
}

/// The first fault of the sectors of a trip, in turn.
pub(crate) fn first_fault(sale: Day, from: City, sectors: &[Sector]) -> Option<TripFault>
    requires { length sectors.now ≤ MOST_SECTORS }
    ensures { result ≡ sectors_fault (length sectors.now) 1 from sale false sectors.now }
{
    let total = sectors.len() as u32;
    let mut place = Place::start(sale, from);
    for sector in sectors {
        if let Some(fault) = place.fault(total, sector) {
            return Some(fault);
        }
        place = place.after(sector);
    }
    None
}
