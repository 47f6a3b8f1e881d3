//! The entries of the text of the first constructions.

ghost use Rattle.std.specs.Prelude.{◌≡◌, ◌++◌, ◌+◌, ◌<◌, OnOk, All, slice_get};
ghost use Rattle.fare_rules.specs.FirstK.{IsPriced};
ghost use Rattle.fare_answers.specs.BestText.{entries_text, entry_text, first_text, place_text};

use crate::first_of::FirstOf;
use fare_calc::{Priced, Sheets, push_line, push_no_fare};
use fare_codes::MOST_BEST;
use fare_ports::NoMemory;
use fare_text::{push_hundredths, push_labelled};
use std::alloc::Global;

/// Appends the first constructions, numbered from 1, or that there is no fare. After want of memory the text may hold a
/// part of it.
#[tactic(auto, using(crate::proofs::EntryLemmas::text_of_none, crate::proofs::EntryLemmas::text_of_some))]
pub(crate) fn push_first(
    text: &mut Vec<u8>,
    alloc: Global,
    first: &FirstOf<'_>,
) -> Result<(), NoMemory>
    requires { All (IsPriced first.now.edition.now first.now.trip.now) first.now.list.now }
    ensures { OnOk result (text.new.items
        ≡ text.old.items ++ first_text first.now.edition.now first.now.trip.now first.now.list.now) }
{
    if first.list.len() == 0 {
        return push_no_fare(text);
    }
    push_entries(text, alloc, first)
}

/// Appends the first constructions, numbered from 1.
#[tactic(auto, using(crate::proofs::EntryLemmas::entries_done))]
fn push_entries(text: &mut Vec<u8>, alloc: Global, first: &FirstOf<'_>) -> Result<(), NoMemory>
    requires { All (IsPriced first.now.edition.now first.now.trip.now) first.now.list.now }
    ensures { OnOk result (text.new.items
        ≡ text.old.items ++ entries_text first.now.edition.now first.now.trip.now 1 first.now.list.now) }
{
    for place in 0..first.list.len() {
        push_place(text, alloc, first, place)?;
    }
    Ok(())
}

/// Appends what stands at a place, from 0, with its number.
fn push_place(
    text: &mut Vec<u8>,
    alloc: Global,
    first: &FirstOf<'_>,
    place: usize,
) -> Result<(), NoMemory>
    requires lawful { All (IsPriced first.now.edition.now first.now.trip.now) first.now.list.now }
    requires few { place < MOST_BEST }
    ensures { OnOk result (text.new.items ≡ text.old.items
        ++ place_text first.now.edition.now first.now.trip.now (place + 1) (slice_get first.now.list.now place)) }
{
    match first.list.get(place) {
        None => Ok(()),
        Some((construction, price)) => {
            let one = Priced {
                edition: first.edition,
                trip: first.trip,
                construction,
                price,
            };
            push_entry(text, alloc, place as u32 + 1, &one)
        }
    }
}

/// Appends a lawful construction with its number and its price.
#[tactic(auto, unfolding(crate::specs::BestText::entry_text))]
fn push_entry(
    text: &mut Vec<u8>,
    alloc: Global,
    number: u32,
    one: &Priced<'_>,
) -> Result<(), NoMemory>
    ensures { OnOk result (text.new.items ≡ text.old.items
        ++ entry_text one.now.edition.now one.now.trip.now number (one.now.construction.now, one.now.price)) }
{
    let sheets = Sheets::of(one);
    push_labelled(text, b"BEST ", number)?;
    text.push(b' ')?;
    push_hundredths(text, sheets.price())?;
    text.push(b'\n')?;
    push_line(text, alloc, &sheets)
}
