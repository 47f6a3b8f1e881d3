//! The one text that a trip is printed as.

ghost use Rattle.std.specs.Prelude.{◌≡◌, map, All, IfOk, OnOk};
ghost use Rattle.serde_json.specs.View.{view};
ghost use Rattle.fare_trip.specs.ItineraryText.{read_trip, trip_of};
ghost use Rattle.fare_trip.specs.Written.{ReadsBack, sector_data, trip_data, trip_text};

use crate::sector::Sector;
use crate::trip::Trip;
use fare_ports::NoMemory;
use serde_json::{Value, json};
use std::alloc::{AllocError, Global};

/// The value of a sector.
#[tactic(auto, unfolding(crate::specs::Written::sector_data))]
fn sector_value(alloc: Global, sector: &Sector) -> Result<Value, AllocError>
    ensures value { IfOk result (λ v. view v ≡ sector_data sector.now) }
    ensures read_back { OnOk result (ReadsBack sector.now) }
{
    let cabin = sector.cabin.text();
    let carrier = sector.carrier.text();
    let day = sector.day.text();
    let over = sector.over.text();
    let to = sector.to.text();
    json!(in alloc; {
        "cabin": cabin.as_str(),
        "carrier": carrier.as_str(),
        "day": day.as_str(),
        "over": over.as_str(),
        "stop": sector.stop,
        "surface": sector.surface,
        "to": to.as_str()
    })
}

/// The values of sectors.
fn sector_values(alloc: Global, sectors: &[Sector]) -> Result<Vec<Value>, AllocError>
    ensures values { IfOk result (λ values. map view values.items ≡ map sector_data sectors.now) }
    ensures read_back { OnOk result (All ReadsBack sectors.now) }
{
    let mut values = Vec::new(alloc);
    for sector in sectors {
        values.push(sector_value(alloc, sector)?)?;
    }
    Ok(values)
}

/// The value of a trip.
#[tactic(auto, unfolding(crate::specs::Written::trip_data))]
fn trip_value(alloc: Global, trip: &Trip) -> Result<Value, AllocError>
    ensures value { IfOk result (λ v. view v ≡ trip_data trip.now) }
    ensures read_back { OnOk result (trip_of (trip_data trip.now) ≡ Ok trip.now) }
{
    trip.law();
    let from = trip.from().text();
    let sale = trip.sale().text();
    let values = sector_values(alloc, trip.sectors())?;
    json!(in alloc; {
        "from": from.as_str(),
        "sale": sale.as_str(),
        "sectors": Value::Array(values)
    })
}

/// The text of a trip: the compact JSON text with all members present. Read back it is the trip.
#[tactic(auto, unfolding(crate::specs::Written::trip_text))]
pub fn trip_text(alloc: Global, trip: &Trip) -> Result<Vec<u8>, NoMemory>
    ensures text { IfOk result (λ text. text.items ≡ trip_text trip.now) }
    ensures read_back { IfOk result (λ text. read_trip text.items ≡ Ok trip.now) }
{
    let value = trip_value(alloc, trip)?;
    Ok(value.to_vec(alloc)?)
}

/// No two trips have one text.
pub fn text_tells(one: &Trip, other: &Trip)
    ensures { trip_text one.now ≡ trip_text other.now → one.now ≡ other.now }
{}
