//! The plain lines and the sentences of refusals.

ghost use Rattle.std.specs.Prelude.{◌≡◌, ◌++◌, IfOk, OnOk, codes, decimal};
ghost use Rattle.fare_book.specs.DamageText.{damage_text};
ghost use Rattle.fare_sentences.specs.FaultWords.{damage_words, desk_text, desk_words, fault_text, fault_words};
ghost use Rattle.fare_sentences.specs.FaultWords.{method_name};

use crate::fault::{Fault, OneMethod};
use crate::sentence::push_around;
use crate::trip_words::push_trip_words;
use fare_book::Damage;
use fare_codes::{City, Day};
use fare_ports::NoMemory;
use fare_text::{push_code, push_labelled};
use std::alloc::Global;

/// The plain line of a refusal, without the LF that ends it.
pub fn fault_text(alloc: Global, fault: &Fault) -> Result<Vec<u8>, NoMemory>
    ensures { IfOk result (λ text. text.items ≡ fault_text fault.now) }
{
    let mut text = Vec::new(alloc);
    push_fault_text(&mut text, fault)?;
    Ok(text)
}

/// The sentence of a refusal.
pub fn fault_words(alloc: Global, fault: &Fault) -> Result<Vec<u8>, NoMemory>
    ensures { IfOk result (λ text. text.items ≡ fault_words fault.now) }
{
    let mut text = Vec::new(alloc);
    push_fault_words(&mut text, fault)?;
    Ok(text)
}

/// Appends the plain line of a refusal.
fn push_fault_text(text: &mut Vec<u8>, fault: &Fault) -> Result<(), NoMemory>
    ensures { OnOk result (text.new.items ≡ text.old.items ++ fault_text fault.now) }
{
    match *fault {
        Fault::Trip(fault) => Ok(text.extend_from_slice(fault.text().as_str().as_bytes())?),
        Fault::NoBatch | Fault::NoRequest => Ok(text.extend_from_slice(b"TRIP Bad trip 0")?),
        Fault::NoTrip => Ok(text.extend_from_slice(b"TRIP Missing trip 0")?),
        Fault::NoLine => Ok(text.extend_from_slice(b"LINE MISSING")?),
        Fault::BadLine(number) => push_labelled(text, b"LINE ", number),
        Fault::SourceLimit(_) | Fault::BatchLimit => Ok(text.extend_from_slice(b"LIMIT")?),
        other => push_desk_text(text, other),
    }
}

/// Appends the plain line of a refusal that has to do with the desk.
fn push_desk_text(text: &mut Vec<u8>, fault: Fault) -> Result<(), NoMemory>
    ensures { OnOk result (text.new.items ≡ text.old.items ++ desk_text fault) }
{
    match fault {
        Fault::NoEdition(day) => push_day(text, b"NO EDITION ", day),
        Fault::UnknownPlace(city) => push_city(text, b"UNKNOWN PLACE ", city),
        Fault::NoRoute => Ok(text.extend_from_slice(b"NO ROUTE")?),
        Fault::Method(_) => Ok(text.extend_from_slice(b"METHOD")?),
        Fault::ReadFault => Ok(text.extend_from_slice(b"READ FAULT")?),
        Fault::KeeperFault => Ok(text.extend_from_slice(b"KEEPER FAULT")?),
        Fault::Damaged(place, damage) => push_damaged(text, place, &damage),
        _ => Ok(()),
    }
}

/// Appends words and then a day.
fn push_day(text: &mut Vec<u8>, words: &[u8], day: Day) -> Result<(), NoMemory>
    ensures { OnOk result (text.new.items ≡ text.old.items ++ (words.now ++ day)) }
{
    text.extend_from_slice(words)?;
    push_code(text, &day.text())
}

/// Appends words and then a city.
fn push_city(text: &mut Vec<u8>, words: &[u8], city: City) -> Result<(), NoMemory>
    ensures { OnOk result (text.new.items ≡ text.old.items ++ (words.now ++ city)) }
{
    text.extend_from_slice(words)?;
    push_code(text, &city.text())
}

/// Appends the plain line of a damage.
fn push_damaged(text: &mut Vec<u8>, place: u32, damage: &Damage) -> Result<(), NoMemory>
    ensures { OnOk result (text.new.items
        ≡ text.old.items ++ codes "DAMAGED " ++ decimal place ++ codes " " ++ damage_text damage.now) }
{
    push_labelled(text, b"DAMAGED ", place)?;
    text.push(b' ')?;
    Ok(text.extend_from_slice(damage.text().as_str().as_bytes())?)
}

/// Appends the sentence of a refusal.
fn push_fault_words(text: &mut Vec<u8>, fault: &Fault) -> Result<(), NoMemory>
    ensures { OnOk result (text.new.items ≡ text.old.items ++ fault_words fault.now) }
{
    match *fault {
        Fault::Trip(fault) => push_trip_words(text, &fault),
        Fault::NoBatch => Ok(text.extend_from_slice(b"the batch isn't a JSON array")?),
        Fault::NoRequest => Ok(text.extend_from_slice(b"the request isn't a JSON object")?),
        Fault::NoTrip => Ok(text.extend_from_slice(b"the request has no member trip")?),
        Fault::NoLine => {
            Ok(text.extend_from_slice(b"the request has no member line that is a string")?)
        }
        Fault::BadLine(number) => push_around(
            text,
            b"the first ",
            number,
            b" bytes of the line begin a calculation line, and no more of them do",
        ),
        Fault::SourceLimit(most) => {
            push_around(text, b"the source holds more than ", most, b" bytes")
        }
        Fault::BatchLimit => {
            Ok(text.extend_from_slice(b"the batch has more than 256 itineraries")?)
        }
        other => push_desk_words(text, other),
    }
}

/// Appends the sentence of a refusal that has to do with the desk.
fn push_desk_words(text: &mut Vec<u8>, fault: Fault) -> Result<(), NoMemory>
    ensures { OnOk result (text.new.items ≡ text.old.items ++ desk_words fault) }
{
    match fault {
        Fault::NoEdition(day) => push_day(text, b"no edition is effective by ", day),
        Fault::UnknownPlace(city) => {
            push_city(text, b"the edition has no record of the city ", city)
        }
        Fault::NoRoute => Ok(text.extend_from_slice(b"nothing is at this path")?),
        Fault::Method(method) => push_method(text, method),
        Fault::ReadFault => Ok(text.extend_from_slice(b"standard input can't be read")?),
        Fault::KeeperFault => Ok(text.extend_from_slice(b"the store can't be used")?),
        Fault::Damaged(place, damage) => push_damage_words(text, place, &damage),
        _ => Ok(()),
    }
}

/// Appends the sentence of a path that takes one method alone.
fn push_method(text: &mut Vec<u8>, method: OneMethod) -> Result<(), NoMemory>
    ensures { OnOk result (text.new.items
        ≡ text.old.items ++ codes "this path takes " ++ method_name method ++ codes " alone") }
{
    match method {
        OneMethod::Get => Ok(text.extend_from_slice(b"this path takes GET alone")?),
        OneMethod::Post => Ok(text.extend_from_slice(b"this path takes POST alone")?),
    }
}

/// Appends the sentence of a damage of the stored text at a place.
fn push_damage_words(text: &mut Vec<u8>, place: u32, damage: &Damage) -> Result<(), NoMemory>
    ensures { OnOk result (text.new.items ≡ text.old.items ++ damage_words place damage.now) }
{
    match *damage {
        Damage::Text(_) => push_around(text, b"text ", place, b" of the store is no edition"),
        Damage::Repeat(first) => {
            push_labelled(text, b"text ", place)?;
            push_labelled(text, b" of the store has the number of text ", first)
        }
        Damage::TooMany => Ok(text.extend_from_slice(b"the store holds more than 32 texts")?),
    }
}
