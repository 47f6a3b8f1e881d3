//! The members of an itinerary's JSON value, each with its fault.

ghost use Rattle.std.specs.Prelude.{◌≡◌, option_map};
ghost use Rattle.serde_json.specs.Find.{as_array, as_str};
ghost use Rattle.serde_json.specs.View.{view, items_view};
ghost use Rattle.fare_trip.specs.ItineraryText.{city_member, day_member, carrier_member, cabin_member, over_member};
ghost use Rattle.fare_trip.specs.ItineraryText.{flag_member};
ghost use Rattle.fare_trip.specs.Steps.{required, seen};

use crate::fault::{Member, TripFault};
use crate::texts::{cabin_in, carrier_in, city_in, day_in};
use fare_codes::{Cabin, Carrier, City, Day, Over};
use serde_json::Value;

/// The text of a string that has to stand there.
fn text_at(found: Option<&Value>, member: Member, number: u32) -> Result<&[u8], TripFault>
    ensures { seen (λ t. t.now) result ≡ required as_str member number (option_map (λ v. view v.now) found.entry) }
{
    let Some(value) = found else {
        return Err(TripFault::Missing(member, number));
    };
    match value.as_str() {
        Some(text) => Ok(text.as_bytes()),
        None => Err(TripFault::Bad(member, number)),
    }
}

/// A city that has to stand there.
#[tactic(auto, unfolding(crate::specs::ItineraryText::city_member))]
pub(crate) fn city_at(found: Option<&Value>, member: Member, number: u32) -> Result<City, TripFault>
    ensures { result ≡ city_member member number (option_map (λ v. view v.now) found.entry) }
{
    match text_at(found, member, number) {
        Ok(text) => city_in(text, member, number),
        Err(fault) => Err(fault),
    }
}

/// A day that has to stand there.
#[tactic(auto, unfolding(crate::specs::ItineraryText::day_member))]
pub(crate) fn day_at(found: Option<&Value>, member: Member, number: u32) -> Result<Day, TripFault>
    ensures { result ≡ day_member member number (option_map (λ v. view v.now) found.entry) }
{
    match text_at(found, member, number) {
        Ok(text) => day_in(text, member, number),
        Err(fault) => Err(fault),
    }
}

/// A carrier that has to stand there.
#[tactic(auto, unfolding(crate::specs::ItineraryText::carrier_member))]
pub(crate) fn carrier_at(found: Option<&Value>, number: u32) -> Result<Carrier, TripFault>
    ensures { result ≡ carrier_member number (option_map (λ v. view v.now) found.entry) }
{
    match text_at(found, Member::Carrier, number) {
        Ok(text) => carrier_in(text, number),
        Err(fault) => Err(fault),
    }
}

/// A cabin that has to stand there.
#[tactic(auto, unfolding(crate::specs::ItineraryText::cabin_member))]
pub(crate) fn cabin_at(found: Option<&Value>, number: u32) -> Result<Cabin, TripFault>
    ensures { result ≡ cabin_member number (option_map (λ v. view v.now) found.entry) }
{
    match text_at(found, Member::Cabin, number) {
        Ok(text) => cabin_in(text, number),
        Err(fault) => Err(fault),
    }
}

/// A mark, which is none where the member is absent.
#[tactic(auto, unfolding(crate::specs::ItineraryText::over_member))]
pub(crate) fn over_at(found: Option<&Value>, number: u32) -> Result<Over, TripFault>
    ensures { result ≡ over_member number (option_map (λ v. view v.now) found.entry) }
{
    let Some(value) = found else {
        return Ok(Over::Unmarked);
    };
    let Some(text) = value.as_str() else {
        return Err(TripFault::Bad(Member::Over, number));
    };
    Over::read(text.as_bytes()).ok_or(TripFault::Bad(Member::Over, number))
}

/// True or false, or what it means that the member is absent.
#[tactic(auto, unfolding(crate::specs::ItineraryText::flag_member))]
pub(crate) fn flag_at(
    found: Option<&Value>,
    absent: bool,
    member: Member,
    number: u32,
) -> Result<bool, TripFault>
    ensures { result ≡ flag_member absent member number (option_map (λ v. view v.now) found.entry) }
{
    match found {
        Some(value) => value.as_bool().ok_or(TripFault::Bad(member, number)),
        None => Ok(absent),
    }
}

/// The items of an array that has to stand there.
pub(crate) fn items_at(found: Option<&Value>, member: Member) -> Result<&[Value], TripFault>
    ensures { seen (λ items. items_view items.now) result
        ≡ required as_array member 0 (option_map (λ v. view v.now) found.entry) }
{
    let Some(value) = found else {
        return Err(TripFault::Missing(member, 0));
    };
    match value.as_array() {
        Some(items) => Ok(items.as_slice()),
        None => Err(TripFault::Bad(member, 0)),
    }
}
