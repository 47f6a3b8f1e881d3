//! What a source holds: an itinerary, a tariff text, or the one on the first line and the other behind it.

ghost use Rattle.std.specs.Prelude.{◌≡◌, ◌+◌, ◌≤◌, length, drop};
ghost use Rattle.std.specs.List.{position_or_len};
ghost use Rattle.fare_commands.specs.declared.exit.Exit.TheVariants.{BadTariff, BadTrip};
ghost use Rattle.fare_commands.specs.Input.{is_line_feed, itinerary_text, tariff_text, itinerary_of};
ghost use Rattle.fare_commands.specs.Steps.{HandsOn};
ghost use Rattle.fare_csv.specs.TariffText.{edition_of};
ghost use Rattle.fare_trip.specs.ItineraryText.{read_trip};
ghost use Rattle.fare_trip.specs.ShortLine.{read_short};

use crate::exit::Exit;
use fare_csv::{TextFault, read_edition};
use fare_tariff::Edition;
use fare_trip::{Trip, TripFault, read_short, read_trip};
use std::alloc::Global;
use std::thread::Threads;

/// Where the first LF stands; the length where there is none.
#[tactic(auto, using(std::proofs::lemmas::List::Sums::position_or_len_is))]
fn line_end(source: &[u8]) -> usize
    ensures place { result ≡ position_or_len is_line_feed source.now }
    ensures within { result ≤ length source.now }
{
    for (i, byte) in source.iter().enumerate() {
        if *byte == b'\n' {
            return i;
        }
    }
    source.len()
}

/// The bytes before the first LF, and those behind it.
pub fn split_source(source: &[u8]) -> (&[u8], &[u8])
    ensures itinerary { result.0.now ≡ itinerary_text source.now }
    ensures tariff { result.1.now ≡ tariff_text source.now }
{
    let end = line_end(source);
    (&source[..end], behind(source, end))
}

/// What stands behind a place of a text.
fn behind(text: &[u8], place: usize) -> &[u8]
    requires { place ≤ length text.now }
    ensures { result.now ≡ drop (place + 1) text.now }
{
    if place == text.len() {
        &[]
    } else {
        &text[place + 1..]
    }
}

/// The edition of a tariff text.
pub fn edition_in<R: Threads + Sync>(rt: &R, alloc: Global, text: &[u8]) -> Result<Edition, Exit>
    ensures { HandsOn BadTariff (edition_of text.now) result }
{
    match read_edition(rt, alloc, text) {
        Ok(edition) => Ok(edition),
        Err(TextFault::Memory) => Err(Exit::Memory),
        Err(fault) => Err(Exit::BadTariff(fault)),
    }
}

/// The trip of an itinerary text, a short line or JSON.
#[tactic(auto, unfolding(crate::specs::Input::itinerary_of))]
pub fn itinerary_in(alloc: Global, text: &[u8]) -> Result<Trip, Exit>
    ensures { HandsOn BadTrip (itinerary_of text.now) result }
{
    if text.starts_with(b"TRIP,") {
        return short_trip_in(text);
    }
    trip_in(alloc, text)
}

/// The trip of a short line.
fn short_trip_in(text: &[u8]) -> Result<Trip, Exit>
    ensures { HandsOn BadTrip (read_short text.now) result }
{
    match read_short(text) {
        Ok(trip) => Ok(trip),
        Err(TripFault::Memory) => Err(Exit::Memory),
        Err(fault) => Err(Exit::BadTrip(fault)),
    }
}

/// The trip of a JSON text.
pub fn trip_in(alloc: Global, text: &[u8]) -> Result<Trip, Exit>
    ensures { HandsOn BadTrip (read_trip text.now) result }
{
    match read_trip(alloc, text) {
        Ok(trip) => Ok(trip),
        Err(TripFault::Memory) => Err(Exit::Memory),
        Err(fault) => Err(Exit::BadTrip(fault)),
    }
}
