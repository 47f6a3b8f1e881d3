//! The short line, an itinerary of one sector in one line of text.

ghost use Rattle.std.specs.Prelude.{◌≡◌, ◌∷◌, []};
ghost use Rattle.fare_trip.specs.ShortLine.{read_short, short_sector, short_trip};

use crate::fault::{Member, TripFault};
use crate::pieces::{ShortTexts, short_texts, trimmed};
use crate::sector::Sector;
use crate::texts::{cabin_in, carrier_in, city_in, day_in};
use crate::trip::Trip;
use fare_codes::Over;

/// The sector of a short line: a flown one with a stopover and no mark.
#[tactic(auto, unfolding(crate::specs::ShortLine::short_sector))]
fn sector_in(texts: &ShortTexts<'_>) -> Result<Sector, TripFault>
    ensures { result ≡ short_sector texts.now.to.now texts.now.carrier.now texts.now.day.now texts.now.cabin.now }
{
    Ok(Sector {
        to: city_in(texts.to, Member::To, 1)?,
        carrier: carrier_in(texts.carrier, 1)?,
        day: day_in(texts.day, Member::Day, 1)?,
        cabin: cabin_in(texts.cabin, 1)?,
        over: Over::Unmarked,
        stop: true,
        surface: false,
    })
}

/// The trip of the pieces of a short line.
#[tactic(auto, unfolding(crate::specs::ShortLine::short_trip))]
fn trip_in(texts: &ShortTexts<'_>) -> Result<Trip, TripFault>
    ensures { result ≡ short_trip (texts.now.kind.now ∷ texts.now.sale.now ∷ texts.now.from.now ∷ texts.now.to.now
        ∷ texts.now.carrier.now ∷ texts.now.day.now ∷ texts.now.cabin.now ∷ []) }
{
    let sale = day_in(texts.sale, Member::Sale, 0)?;
    let from = city_in(texts.from, Member::From, 0)?;
    let sector = sector_in(texts)?;
    Trip::new(sale, from, &[sector])
}

/// The trip that a short line `TRIP,sale,from,to,carrier,day,cabin` stands for, with one CR at its end allowed, or its
/// first fault. It takes no memory.
#[tactic(auto, unfolding(crate::specs::ShortLine::read_short))]
pub fn read_short(line: &[u8]) -> Result<Trip, TripFault>
    ensures { result ≡ read_short line.now }
{
    match short_texts(trimmed(line)) {
        Some(texts) if texts.kind == b"TRIP".as_slice() => trip_in(&texts),
        _ => Err(TripFault::Bad(Member::Trip, 0)),
    }
}
