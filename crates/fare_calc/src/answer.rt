//! The text that answers a quotation.

ghost use Rattle.std.specs.Prelude.{◌≡◌, ◌++◌, None, Some, IfOk, IfSome, OnOk, codes};
ghost use Rattle.std.specs.Option.{option_copied};
ghost use Rattle.fare_rules.specs.Lawful.{first_broken};
ghost use Rattle.fare_calc.specs.Answer.{answer_text, edition_line, no_fare_line};
ghost use Rattle.fare_calc.specs.LineOf.{line_of};
ghost use Rattle.fare_line.specs.LineText.{line_text};

use crate::composing::line_by;
use crate::priced::Priced;
use crate::sheets::Sheets;
use crate::worksheet::push_worksheet;
use fare_line::print_line;
use fare_ports::NoMemory;
use fare_tariff::Edition;
use fare_text::{push_code, push_labelled};
use fare_trip::Trip;
use fare_units::Construction;
use std::alloc::Global;

/// The answer text: the line that names the edition, and then the calculation line of the best construction, which is
/// lawful, with its worksheet; or `NO FARE` where there is none.
#[tactic(auto, unfolding(crate::specs::Answer::answer_text))]
pub fn answer_text(
    alloc: Global,
    edition: &Edition,
    trip: &Trip,
    best: Option<&Construction>,
) -> Result<Vec<u8>, NoMemory>
    requires { IfSome best (λ c. first_broken edition.now trip.now c.now ≡ None) }
    ensures { IfOk result (λ text. text.items ≡ answer_text edition.now trip.now (option_copied best.entry)) }
{
    match best {
        None => no_fare_text(alloc, edition),
        Some(c) => priced_text(alloc, &Priced::of(edition, trip, c)),
    }
}

/// The answer text where no construction is lawful.
pub fn no_fare_text(alloc: Global, edition: &Edition) -> Result<Vec<u8>, NoMemory>
    ensures { IfOk result (λ text. text.items ≡ edition_line edition.now ++ no_fare_line) }
{
    let mut text = Vec::new(alloc);
    push_edition(&mut text, edition)?;
    push_no_fare(&mut text)?;
    Ok(text)
}

/// The answer text of the best construction, with the price that was found for it.
#[tactic(auto, unfolding(crate::specs::Answer::answer_text))]
pub fn priced_text(alloc: Global, best: &Priced<'_>) -> Result<Vec<u8>, NoMemory>
    ensures { IfOk result (λ text. text.items
        ≡ answer_text best.now.edition.now best.now.trip.now (Some best.now.construction.now)) }
{
    let sheets = Sheets::of(best);
    let mut text = Vec::new(alloc);
    push_edition(&mut text, best.edition)?;
    push_line(&mut text, alloc, &sheets)?;
    push_worksheet(&mut text, &sheets)?;
    Ok(text)
}

/// Appends the line that names an edition: `EDITION`, its number and its effective day. After want of memory the text
/// may hold a part of it.
pub fn push_edition(text: &mut Vec<u8>, edition: &Edition) -> Result<(), NoMemory>
    ensures { OnOk result (text.new.items ≡ text.old.items ++ edition_line edition.now) }
{
    push_labelled(text, b"EDITION ", edition.number())?;
    text.push(b' ')?;
    push_code(text, &edition.effective().text())?;
    Ok(text.push(b'\n')?)
}

/// Appends the line that says that no construction is lawful.
pub fn push_no_fare(text: &mut Vec<u8>) -> Result<(), NoMemory>
    ensures { OnOk result (text.new.items ≡ text.old.items ++ no_fare_line) }
{
    Ok(text.extend_from_slice(b"NO FARE\n")?)
}

/// Appends the calculation line of a lawful construction. After want of memory the text may hold a part of it.
pub fn push_line(text: &mut Vec<u8>, alloc: Global, sheets: &Sheets<'_>) -> Result<(), NoMemory>
    ensures { OnOk result (text.new.items ≡ text.old.items
        ++ line_text (line_of sheets.now.edition sheets.now.trip sheets.now.parts) ++ codes "\n") }
{
    let line = line_by(sheets);
    text.extend_from_slice(print_line(alloc, &line)?.as_slice())?;
    Ok(text.push(b'\n')?)
}
