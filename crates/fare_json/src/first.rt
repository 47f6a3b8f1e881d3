//! The JSON answer of the first constructions of a trip in an edition.

ghost use Rattle.std.specs.Prelude.{◌≡◌, ◌++◌, ◌<◌, ◌≤◌, All, IfOk, OnOk, slice_get};
ghost use Rattle.fare_rules.specs.FirstK.{IsPriced};
ghost use Rattle.fare_json.specs.BestData.{first_data};
ghost use Rattle.fare_json.specs.JsonText.{json_line};
ghost use Rattle.fare_json.specs.Spelled.{comma_at, entry_json, first_json, listed_json, place_json};

use crate::construction::push_line;
use crate::edition::push_edition;
use crate::writing::push_money;
use fare_answers::FirstOf;
use fare_calc::{Priced, Sheets};
use fare_codes::MOST_BEST;
use fare_ports::NoMemory;
use std::alloc::Global;

/// The JSON answer of the first constructions of a trip in an edition.
#[tactic(auto, using(crate::proofs::BestLemmas::first_text))]
pub fn first_json(alloc: Global, first: &FirstOf<'_>) -> Result<Vec<u8>, NoMemory>
    requires { All (IsPriced first.now.edition.now first.now.trip.now) first.now.list.now }
    ensures { IfOk result (λ text. text.items
        ≡ json_line (first_data first.now.edition.now first.now.trip.now first.now.list.now)) }
{
    spelled_first(alloc, first)
}

/// The same, as it is spelled.
#[tactic(auto, unfolding(crate::specs::Spelled::first_json))]
fn spelled_first(alloc: Global, first: &FirstOf<'_>) -> Result<Vec<u8>, NoMemory>
    requires { All (IsPriced first.now.edition.now first.now.trip.now) first.now.list.now }
    ensures { IfOk result (λ text. text.items
        ≡ first_json first.now.edition.now first.now.trip.now first.now.list.now) }
{
    let mut text = Vec::new(alloc);
    text.extend_from_slice(b"{\"best\":[")?;
    push_entries(&mut text, alloc, first)?;
    text.extend_from_slice(b"],\"edition\":")?;
    push_edition(&mut text, first.edition)?;
    text.extend_from_slice(b"}\n")?;
    Ok(text)
}

/// Appends the constructions, with a comma before each but the first.
#[tactic(auto, using(crate::proofs::EntryLemmas::entries_done))]
fn push_entries(text: &mut Vec<u8>, alloc: Global, first: &FirstOf<'_>) -> Result<(), NoMemory>
    requires { All (IsPriced first.now.edition.now first.now.trip.now) first.now.list.now }
    ensures { OnOk result (text.new.items ≡ text.old.items
        ++ listed_json (entry_json first.now.edition.now first.now.trip.now) first.now.list.now) }
{
    for place in 0..first.list.len() {
        push_place(text, alloc, first, place)?;
    }
    Ok(())
}

/// Appends what stands at a place, from 0, with a comma before it but at the first.
fn push_place(
    text: &mut Vec<u8>,
    alloc: Global,
    first: &FirstOf<'_>,
    place: usize,
) -> Result<(), NoMemory>
    requires lawful { All (IsPriced first.now.edition.now first.now.trip.now) first.now.list.now }
    requires few { place < MOST_BEST }
    ensures { OnOk result (text.new.items ≡ text.old.items
        ++ place_json first.now.edition.now first.now.trip.now place (slice_get first.now.list.now place)) }
{
    match first.list.get(place) {
        None => Ok(()),
        Some((construction, price)) => {
            push_comma_at(text, place)?;
            let one = Priced {
                edition: first.edition,
                trip: first.trip,
                construction,
                price,
            };
            push_entry(text, alloc, &one)
        }
    }
}

/// Appends a comma, but at the first place.
fn push_comma_at(text: &mut Vec<u8>, place: usize) -> Result<(), NoMemory>
    ensures { OnOk result (text.new.items ≡ text.old.items ++ comma_at place) }
{
    if place == 0 {
        Ok(())
    } else {
        Ok(text.push(b',')?)
    }
}

/// Appends a lawful construction with its price.
#[tactic(auto, unfolding(crate::specs::Spelled::entry_json))]
fn push_entry(text: &mut Vec<u8>, alloc: Global, one: &Priced<'_>) -> Result<(), NoMemory>
    ensures { OnOk result (text.new.items ≡ text.old.items
        ++ entry_json one.now.edition.now one.now.trip.now (one.now.construction.now, one.now.price)) }
{
    let sheets = Sheets::of(one);
    text.extend_from_slice(b"{\"line\":")?;
    push_line(text, alloc, &sheets)?;
    push_money(text, b",\"total\":", sheets.price())?;
    Ok(text.push(b'}')?)
}
