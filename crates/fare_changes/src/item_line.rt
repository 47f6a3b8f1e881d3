//! The lines of items.

ghost use Rattle.std.specs.Prelude.{◌≡◌, ◌++◌, OnOk};
ghost use Rattle.fare_changes.specs.CompareText.{item_line, item_lines, words_of};

use crate::change::{push_total, push_total_change};
use crate::compared::Compared;
use fare_codes::City;
use fare_ports::NoMemory;
use fare_text::{push_code, push_whole};

/// Appends what stands behind the number of an item.
#[tactic(auto, unfolding(crate::specs::CompareText::words_of))]
fn push_words(text: &mut Vec<u8>, one: &Compared) -> Result<(), NoMemory>
    ensures { OnOk result (text.new.items ≡ text.old.items ++ words_of one.now) }
{
    match *one {
        Compared::Faulty(fault) => {
            text.extend_from_slice(b"FAULT ")?;
            Ok(text.extend_from_slice(fault.text().as_str().as_bytes())?)
        }
        Compared::Unknown(city) => {
            text.extend_from_slice(b"FAULT UNKNOWN PLACE ")?;
            push_city(text, city)
        }
        Compared::Totals(old, new) => {
            push_total(text, old)?;
            text.push(b' ')?;
            push_total(text, new)?;
            text.push(b' ')?;
            push_total_change(text, old, new)
        }
    }
}

/// Appends the code of a city.
fn push_city(text: &mut Vec<u8>, city: City) -> Result<(), NoMemory>
    ensures { OnOk result (text.new.items ≡ text.old.items ++ city) }
{
    push_code(text, &city.text())
}

/// Appends the line of an item.
#[tactic(auto, unfolding(crate::specs::CompareText::item_line))]
fn push_item(text: &mut Vec<u8>, number: u128, one: &Compared) -> Result<(), NoMemory>
    ensures { OnOk result (text.new.items ≡ text.old.items ++ item_line number one.now) }
{
    text.extend_from_slice(b"ITEM ")?;
    push_whole(text, number)?;
    text.push(b' ')?;
    push_words(text, one)?;
    Ok(text.push(b'\n')?)
}

/// Appends the lines of items, numbered from 1.
pub(crate) fn push_items(text: &mut Vec<u8>, compared: &[Compared]) -> Result<(), NoMemory>
    ensures { OnOk result (text.new.items ≡ text.old.items ++ item_lines 1 compared.now) }
{
    for (place, one) in compared.iter().enumerate() {
        push_item(text, place as u128 + 1, one)?;
    }
    Ok(())
}
