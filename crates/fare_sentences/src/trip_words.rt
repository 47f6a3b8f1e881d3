//! The sentences of the faults of an itinerary.

ghost use Rattle.std.specs.Prelude.{◌≡◌, ◌++◌, OnOk, codes};
ghost use Rattle.fare_trip.specs.FaultText.{member_name};
ghost use Rattle.fare_sentences.specs.TripWords.{bad_member_words, bad_words, form_words, trip_words, whole_words};

use crate::sentence::push_around;
use fare_ports::NoMemory;
use fare_text::push_labelled;
use fare_trip::{Member, TripFault};

/// Appends the sentence of a fault of an itinerary; nothing for want of memory.
pub(crate) fn push_trip_words(text: &mut Vec<u8>, fault: &TripFault) -> Result<(), NoMemory>
    ensures { OnOk result (text.new.items ≡ text.old.items ++ trip_words fault.now) }
{
    match *fault {
        TripFault::Memory => Ok(()),
        TripFault::NotJson => Ok(text.extend_from_slice(b"the text isn't JSON")?),
        TripFault::Missing(member, number) => push_missing(text, member, number),
        TripFault::Bad(member, number) => push_bad(text, member, number),
        TripFault::NoSectors => Ok(text.extend_from_slice(b"the itinerary has no sector")?),
        TripFault::TooMany(number) => {
            push_around(
                text,
                b"the itinerary has ",
                number,
                b" sectors, and 16 are the most",
            )
        }
        TripFault::SameCity(number) => {
            push_around(
                text,
                b"sector ",
                number,
                b" ends in the city where it begins",
            )
        }
        TripFault::DatesFall(number) => push_around(
            text,
            b"the day of sector ",
            number,
            b" is before the day of the sector before it, or before the sale day",
        ),
        TripFault::SurfacePlace(number) => push_around(
            text,
            b"sector ",
            number,
            b" is a surface sector, and is the first, the last or behind another one",
        ),
    }
}

/// Appends what a member belongs to.
#[tactic(auto, unfolding(crate::specs::TripWords::whole_words))]
fn push_whole(text: &mut Vec<u8>, number: u32) -> Result<(), NoMemory>
    ensures { OnOk result (text.new.items ≡ text.old.items ++ whole_words number) }
{
    if number == 0 {
        Ok(text.extend_from_slice(b"the itinerary")?)
    } else {
        push_labelled(text, b"sector ", number)
    }
}

/// Appends the sentence of a member that is absent.
fn push_missing(text: &mut Vec<u8>, member: Member, number: u32) -> Result<(), NoMemory>
    ensures { OnOk result (text.new.items
        ≡ text.old.items ++ whole_words number ++ codes " has no member " ++ member_name member) }
{
    push_whole(text, number)?;
    text.extend_from_slice(b" has no member ")?;
    Ok(text.extend_from_slice(member.name().as_bytes())?)
}

/// Appends the sentence of what isn't in its form.
fn push_bad(text: &mut Vec<u8>, member: Member, number: u32) -> Result<(), NoMemory>
    ensures { OnOk result (text.new.items ≡ text.old.items ++ bad_words member number) }
{
    match member {
        Member::Trip => Ok(text.extend_from_slice(
            b"the itinerary is neither a JSON object nor a short line of seven pieces",
        )?),
        Member::Sector => push_around(text, b"sector ", number, b" isn't a JSON object"),
        other => push_bad_member(text, other, number),
    }
}

/// Appends the sentence of a member that isn't in its form.
#[tactic(auto, unfolding(crate::specs::TripWords::bad_member_words))]
fn push_bad_member(text: &mut Vec<u8>, member: Member, number: u32) -> Result<(), NoMemory>
    ensures { OnOk result (text.new.items ≡ text.old.items ++ bad_member_words member number) }
{
    text.extend_from_slice(b"the member ")?;
    text.extend_from_slice(member.name().as_bytes())?;
    text.extend_from_slice(b" of ")?;
    push_whole(text, number)?;
    text.extend_from_slice(b" has to be ")?;
    Ok(text.extend_from_slice(form_words(member))?)
}

/// The form that a member has to have.
fn form_words(member: Member) -> &'static [u8]
    ensures { result.now ≡ form_words member }
{
    match member {
        Member::Trip => b"an itinerary",
        Member::Sale | Member::Day => b"a day YYYY-MM-DD from 1970 to 9999, as a string",
        Member::From | Member::To => b"three letters A to Z, as a string",
        Member::Sectors => b"an array",
        Member::Sector => b"a sector",
        Member::Carrier => b"two characters A to Z or 0 to 9, as a string",
        Member::Cabin => b"F, C or Y, as a string",
        Member::Over => b"empty, AT or PA, as a string",
        Member::Stop | Member::Surface => b"true or false",
    }
}
