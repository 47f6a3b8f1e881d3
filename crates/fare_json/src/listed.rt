//! The JSON answer that lists the editions of a book.

ghost use Rattle.std.specs.Prelude.{◌≡◌, ◌++◌, IfOk, OnOk};
ghost use Rattle.std.specs.List.{flat_map};
ghost use Rattle.fare_json.specs.JsonText.{json_line};
ghost use Rattle.fare_json.specs.ListData.{list_data};
ghost use Rattle.fare_json.specs.Spelled.{after_comma, list_json, listed_edition_json, listed_json};

use crate::writing::push_named;
use fare_book::Book;
use fare_ports::NoMemory;
use fare_tariff::Edition;
use fare_text::push_labelled;
use std::alloc::Global;

/// The JSON answer that lists the editions of a book in the order of publication, each with its number, its effective
/// day and how many records it has.
#[tactic(auto, using(crate::proofs::ListLemmas::list_text))]
pub fn list_json(alloc: Global, book: &Book) -> Result<Vec<u8>, NoMemory>
    ensures { IfOk result (λ text. text.items ≡ json_line (list_data book.now.editions)) }
{
    spelled_list(alloc, book.editions())
}

/// The same, as it is spelled.
#[tactic(auto, unfolding(crate::specs::Spelled::list_json))]
fn spelled_list(alloc: Global, editions: &[Edition]) -> Result<Vec<u8>, NoMemory>
    ensures { IfOk result (λ text. text.items ≡ list_json editions.now) }
{
    let mut text = Vec::new(alloc);
    text.extend_from_slice(b"{\"editions\":[")?;
    push_editions(&mut text, editions)?;
    text.extend_from_slice(b"]}\n")?;
    Ok(text)
}

/// Appends editions, with a comma before each but the first.
fn push_editions(text: &mut Vec<u8>, editions: &[Edition]) -> Result<(), NoMemory>
    ensures { OnOk result (text.new.items ≡ text.old.items ++ listed_json listed_edition_json editions.now) }
{
    match editions.split_first() {
        None => Ok(()),
        Some((first, rest)) => {
            push_edition(text, first)?;
            push_more_editions(text, rest)
        }
    }
}

/// Appends editions, each behind a comma.
fn push_more_editions(text: &mut Vec<u8>, editions: &[Edition]) -> Result<(), NoMemory>
    ensures { OnOk result (text.new.items
        ≡ text.old.items ++ flat_map (after_comma listed_edition_json) editions.now) }
{
    for edition in editions {
        text.push(b',')?;
        push_edition(text, edition)?;
    }
    Ok(())
}

/// Appends an edition with how many records it has.
#[tactic(auto, unfolding(crate::specs::Spelled::listed_edition_json))]
fn push_edition(text: &mut Vec<u8>, edition: &Edition) -> Result<(), NoMemory>
    ensures { OnOk result (text.new.items ≡ text.old.items ++ listed_edition_json edition.now) }
{
    push_named(text, b"{\"effective\":", &edition.effective().text())?;
    push_labelled(text, b",\"number\":", edition.number())?;
    push_labelled(text, b",\"records\":", edition.records().len() as u32)?;
    Ok(text.push(b'}')?)
}
