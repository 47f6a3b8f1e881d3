//! The text of an itinerary: a JSON object.

ghost use Rattle.std.specs.Prelude.{◌≡◌, ◌≤◌, IfOk, false, length, option_map};
ghost use Rattle.serde_json.specs.View.{view, items_view};
ghost use Rattle.fare_trip.specs.ItineraryText.{sector_members, sector_of, placed_sector, sectors_of, counted_trip};
ghost use Rattle.fare_trip.specs.ItineraryText.{placed_trip, trip_members, trip_of, read_trip, json_of};
ghost use Rattle.fare_ports.specs.Memory.{Gives};
ghost use Rattle.fare_trip.specs.Steps.{seen};

use crate::fault::{Member, TripFault};
use crate::members::{cabin_at, carrier_at, city_at, day_at, flag_at, items_at, over_at};
use crate::place::Place;
use crate::sector::Sector;
use crate::trip::{Trip, carried};
use arrayvec::ArrayVec;
use fare_codes::{City, Day, MOST_SECTORS};
use fare_ports::NoMemory;
use serde_json::Value;
use std::alloc::Global;

/// The sector of an object's members.
#[tactic(auto, unfolding(crate::specs::ItineraryText::sector_members))]
fn members_of(value: &Value, number: u32) -> Result<Sector, TripFault>
    ensures { result ≡ sector_members number (view value.now) }
{
    Ok(Sector {
        to: city_at(value.get("to"), Member::To, number)?,
        carrier: carrier_at(value.get("carrier"), number)?,
        day: day_at(value.get("day"), Member::Day, number)?,
        cabin: cabin_at(value.get("cabin"), number)?,
        over: over_at(value.get("over"), number)?,
        stop: flag_at(value.get("stop"), true, Member::Stop, number)?,
        surface: flag_at(value.get("surface"), false, Member::Surface, number)?,
    })
}

/// The sector of a value, which has to be an object.
#[tactic(auto, unfolding(crate::specs::ItineraryText::sector_of))]
fn sector_in(value: &Value, number: u32) -> Result<Sector, TripFault>
    ensures { result ≡ sector_of number (view value.now) }
{
    if value.is_object() {
        members_of(value, number)
    } else {
        Err(TripFault::Bad(Member::Sector, number))
    }
}

/// The sector of a value where it stands among so many.
#[tactic(auto, unfolding(crate::specs::ItineraryText::placed_sector))]
fn sector_at(place: &Place, total: u32, value: &Value) -> Result<Sector, TripFault>
    ensures { result ≡ placed_sector total place.now.number place.now.city place.now.day place.now.behind_surface
        (view value.now) }
{
    let sector = sector_in(value, place.number)?;
    match place.fault(total, &sector) {
        Some(fault) => Err(fault),
        None => Ok(sector),
    }
}

/// The sectors of the values, in turn.
fn sectors_in(
    sale: Day,
    from: City,
    values: &[Value],
) -> Result<ArrayVec<Sector, MOST_SECTORS>, TripFault>
    requires { length values.now ≤ MOST_SECTORS }
    ensures { seen (λ sectors. sectors.items) result
        ≡ sectors_of (length values.now) 1 from sale false (items_view values.now) }
{
    let total = values.len() as u32;
    let mut place = Place::start(sale, from);
    let mut sectors = ArrayVec::new();
    for value in values {
        match sector_at(&place, total, value) {
            Ok(sector) => {
                place = place.after(&sector);
                sectors.push(sector);
            }
            Err(fault) => return Err(fault),
        }
    }
    Ok(sectors)
}

/// The trip of 1 to `MOST_SECTORS` values.
#[tactic(auto, using(crate::proofs::JsonLemmas::counted), unfolding(crate::specs::ItineraryText::placed_trip))]
fn placed_trip(sale: Day, from: City, values: &[Value]) -> Result<Trip, TripFault>
    requires { length values.now ≤ MOST_SECTORS }
    ensures { result ≡ placed_trip sale from (items_view values.now) }
{
    match sectors_in(sale, from, values) {
        Ok(sectors) => Trip::new(sale, from, sectors.as_slice()),
        Err(fault) => Err(fault),
    }
}

/// The trip of the values, which are counted before any of them is looked at.
#[tactic(auto, using(crate::proofs::JsonLemmas::counted), unfolding(crate::specs::ItineraryText::counted_trip))]
fn counted_trip(sale: Day, from: City, values: &[Value]) -> Result<Trip, TripFault>
    ensures { result ≡ counted_trip sale from (items_view values.now) }
{
    if values.is_empty() {
        return Err(TripFault::NoSectors);
    }
    if values.len() > MOST_SECTORS {
        return Err(TripFault::TooMany(carried(values.len())));
    }
    placed_trip(sale, from, values)
}

/// The trip of an object's members.
#[tactic(auto, unfolding(crate::specs::ItineraryText::trip_members))]
fn trip_in(value: &Value) -> Result<Trip, TripFault>
    ensures { result ≡ trip_members (view value.now) }
{
    let sale = day_at(value.get("sale"), Member::Sale, 0)?;
    let from = city_at(value.get("from"), Member::From, 0)?;
    match items_at(value.get("sectors"), Member::Sectors) {
        Ok(values) => counted_trip(sale, from, values),
        Err(fault) => Err(fault),
    }
}

/// The trip that a JSON value stands for, or its first fault, which is never NotJson. It takes no memory.
#[tactic(auto, unfolding(crate::specs::ItineraryText::trip_of))]
pub fn trip_of(_alloc: Global, value: &Value) -> Result<Trip, TripFault>
    ensures { result ≡ trip_of (view value.now) }
{
    if value.is_object() {
        trip_in(value)
    } else {
        Err(TripFault::Bad(Member::Trip, 0))
    }
}

/// The JSON value of a text; nothing exactly where the bytes are no UTF-8 or no JSON value. Want of memory may come for
/// any text.
pub fn read_json(alloc: Global, text: &[u8]) -> Result<Option<Value>, NoMemory>
    ensures { IfOk result (λ found. option_map view found ≡ json_of text.now) }
{
    match Value::from_slice(alloc, text) {
        Ok(value) => Ok(Some(value)),
        Err(error) => {
            if error.is_memory() {
                Err(NoMemory)
            } else {
                Ok(None)
            }
        }
    }
}

/// The trip that a JSON text stands for, or its first fault: NotJson exactly where the bytes are no UTF-8 or no JSON
/// value. Want of memory may come for any text.
pub fn read_trip(alloc: Global, bytes: &[u8]) -> Result<Trip, TripFault>
    ensures { Gives TripFault.Memory (λ trip. trip) result (read_trip bytes.now) }
{
    match read_json(alloc, bytes) {
        Err(NoMemory) => Err(TripFault::Memory),
        Ok(None) => Err(TripFault::NotJson),
        Ok(Some(value)) => trip_of(alloc, &value),
    }
}
