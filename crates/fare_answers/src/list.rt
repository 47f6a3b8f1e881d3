//! The text that lists the editions of a book.

ghost use Rattle.std.specs.Prelude.{◌≡◌, ◌++◌, IfOk, OnOk};
ghost use Rattle.fare_answers.specs.List.{list_line, list_text};

use fare_book::Book;
use fare_ports::NoMemory;
use fare_tariff::Edition;
use fare_text::{push_code, push_labelled};
use std::alloc::Global;

/// The text that lists the editions of a book: one line an edition, in the order of publication, with its number, its
/// effective day and how many records it has.
pub fn list_text(alloc: Global, book: &Book) -> Result<Vec<u8>, NoMemory>
    ensures { IfOk result (λ text. text.items ≡ list_text book.now.editions) }
{
    let mut text = Vec::new(alloc);
    for edition in book.editions() {
        push_list_line(&mut text, edition)?;
    }
    Ok(text)
}

/// Appends the line of an edition. After want of memory the text may hold a part of it.
fn push_list_line(text: &mut Vec<u8>, edition: &Edition) -> Result<(), NoMemory>
    ensures { OnOk result (text.new.items ≡ text.old.items ++ list_line edition.now) }
{
    push_labelled(text, b"EDITION ", edition.number())?;
    text.push(b' ')?;
    push_code(text, &edition.effective().text())?;
    push_labelled(text, b" ", edition.records().len() as u32)?;
    Ok(text.push(b'\n')?)
}
