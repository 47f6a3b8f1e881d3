ghost use Rattle.std.specs.Prelude.{◌≡◌, ◌≤◌};
ghost use Rattle.fare_trip.specs.Itinerary.{count, point, sector};
ghost use Rattle.fare_trip.specs.Trip.{make_trip, carried, IsTrip};

use crate::fault::TripFault;
use crate::place::first_fault;
use crate::sector::Sector;
use arrayvec::ArrayVec;
use fare_codes::{City, Day, MOST_SECTORS};
use std::marker::Model;

/// An itinerary: a sale day, a first city and 1 to `MOST_SECTORS` sectors. Neighbouring points differ, days don't fall
/// from the sale day on, and neither the first nor the last sector is a surface sector, nor are two neighbouring ones.
#[derive(Drop)]
pub struct Trip {
    sale: Day,
    from: City,
    sectors: ArrayVec<Sector, MOST_SECTORS>,
}

impl Model for Trip {
    ghost use Rattle.std.specs.Prelude.{◌≡◌, Ok};
    ghost use Rattle.fare_trip.specs.Itinerary.{Itinerary};

    ghost Value = { Itinerary };

    ghost use Rattle.fare_trip.specs.Trip.{make_trip};

    ghost view = { λ t. record { sale = t.sale; from = t.from; sectors = t.sectors.items } };

    ghost invariant = { λ t. make_trip t.sale t.from t.sectors.items
        ≡ Ok (record { sale = t.sale; from = t.from; sectors = t.sectors.items }) };
}

impl Trip {
    /// The trip of a sale day, a first city and sectors, or its first fault: no sector, more than `MOST_SECTORS`,
    /// or sector by sector one that ends where it begins, a day that falls, and a surface sector out of place.
    #[tactic(auto, unfolding(crate::specs::Trip::make_trip))]
    pub fn new(sale: Day, from: City, sectors: &[Sector]) -> Result<Trip, TripFault>
        ensures { result ≡ make_trip sale from sectors.now }
    {
        if sectors.is_empty() {
            return Err(TripFault::NoSectors);
        }
        if sectors.len() > MOST_SECTORS {
            return Err(TripFault::TooMany(carried(sectors.len())));
        }
        if let Some(fault) = first_fault(sale, from, sectors) {
            return Err(fault);
        }
        let mut kept = ArrayVec::new();
        let _fits = kept.try_extend_from_slice(sectors);
        Ok(Trip {
            sale,
            from,
            sectors: kept,
        })
    }

    /// What holds of every trip: it has 1 to `MOST_SECTORS` sectors, neighbouring points differ, days don't fall from
    /// the sale day on, and neither the first nor the last sector is a surface sector, nor are two neighbouring ones.
    pub fn law(&self)
        ensures ordered { IsTrip self.now }
        ensures makes { make_trip self.now.sale self.now.from self.now.sectors ≡ Ok self.now }
    {
        let _ = &self.sale;
    }

    /// The day on which it is sold.
    pub fn sale(&self) -> Day
        ensures { result ≡ self.now.sale }
    {
        self.sale
    }

    /// The city where it begins.
    pub fn from(&self) -> City
        ensures { result ≡ self.now.from }
    {
        self.from
    }

    /// How many sectors it has: 1 to `MOST_SECTORS`.
    pub fn count(&self) -> usize
        ensures value { result ≡ count self.now }
        ensures some { 1 ≤ result }
        ensures at_most { result ≤ MOST_SECTORS }
    {
        self.sectors.len()
    }

    /// Its sectors, in order.
    pub fn sectors(&self) -> &[Sector]
        ensures { result.now ≡ self.now.sectors }
    {
        self.sectors.as_slice()
    }

    /// A point of it: its first city at 0, else the city that the sector of the number reaches.
    pub fn point(&self, i: usize) -> City
        requires { i ≤ count self.now }
        ensures { result ≡ point self.now i }
    {
        if i == 0 {
            return self.from;
        }
        self.sectors[i - 1].to
    }

    /// The sector of a number, from 1.
    pub fn sector(&self, i: usize) -> Sector
        requires from_one { 1 ≤ i }
        requires to_count { i ≤ count self.now }
        ensures { result ≡ sector self.now i }
    {
        self.sectors[i - 1]
    }
}

/// A number as a fault carries it: the last 32-bit number where it would be greater.
pub(crate) fn carried(number: usize) -> u32
    ensures { result ≡ carried number }
{
    number.min(u32::MAX as usize) as u32
}
