//! The text of what would make a trip cheaper over a book.

ghost use Rattle.std.specs.Prelude.{◌≡◌, ◌++◌, ◌<◌, IfOk, IfSome, OnOk};
ghost use Rattle.fare_answers.specs.Answers.{Answers};
ghost use Rattle.fare_rules.specs.declared.limits.TheConstants.{PRICE_LIMIT};
ghost use Rattle.fare_why.specs.WhyText.{WhyOver, WhyPlaced, best_line, broken_line, reason_text, reasons_text};
ghost use Rattle.fare_why.specs.WhyText.{saved_text, why_text, without_line};

use crate::explaining::why;
use crate::explanation::Why;
use crate::reason::Reason;
use crate::searching::Searches;
use fare_answers::{QuoteFault, edition_for};
use fare_book::Book;
use fare_calc::{push_edition, push_no_fare};
use fare_ports::NoMemory;
use fare_rules::Broken;
use fare_tariff::Edition;
use fare_text::{push_hundredths, push_labelled};
use fare_trip::Trip;
use fare_units::Quoter;
use std::alloc::Global;
use std::thread::Threads;

/// Appends the line of the best price, or that there is no fare. After want of memory the text may hold a part of it.
fn push_best(text: &mut Vec<u8>, total: Option<u64>) -> Result<(), NoMemory>
    requires { IfSome total (λ price. price < PRICE_LIMIT) }
    ensures { OnOk result (text.new.items ≡ text.old.items ++ best_line total) }
{
    match total {
        None => push_no_fare(text),
        Some(price) => {
            text.extend_from_slice(b"BEST ")?;
            push_hundredths(text, price)?;
            Ok(text.push(b'\n')?)
        }
    }
}

/// Appends the amount that is saved, or a dash.
fn push_saved(text: &mut Vec<u8>, saves: Option<u64>) -> Result<(), NoMemory>
    requires { IfSome saves (λ saved. saved < PRICE_LIMIT) }
    ensures { OnOk result (text.new.items ≡ text.old.items ++ saved_text saves) }
{
    match saves {
        None => Ok(text.push(b'-')?),
        Some(saved) => push_hundredths(text, saved),
    }
}

/// Appends the line of a broken rule with its place.
fn push_broken(text: &mut Vec<u8>, broken: Broken) -> Result<(), NoMemory>
    ensures { OnOk result (text.new.items ≡ text.old.items ++ broken_line broken) }
{
    push_labelled(text, b"BROKEN ", broken.rule as u32)?;
    push_labelled(text, b" ", broken.place)?;
    Ok(text.push(b'\n')?)
}

/// Appends the line of a kind of condition, with the price without it and what that saves.
fn push_without(text: &mut Vec<u8>, reason: &Reason) -> Result<(), NoMemory>
    ensures { OnOk result (text.new.items ≡ text.old.items ++ without_line reason.now) }
{
    text.extend_from_slice(b"WITHOUT ")?;
    text.extend_from_slice(reason.term().name())?;
    text.push(b' ')?;
    push_hundredths(text, reason.total())?;
    text.extend_from_slice(b" SAVES ")?;
    push_saved(text, reason.saves())?;
    Ok(text.push(b'\n')?)
}

/// Appends a reason.
#[tactic(auto, unfolding(crate::specs::WhyText::reason_text))]
fn push_reason(text: &mut Vec<u8>, reason: &Reason) -> Result<(), NoMemory>
    ensures { OnOk result (text.new.items ≡ text.old.items ++ reason_text reason.now) }
{
    push_without(text, reason)?;
    text.extend_from_slice(reason.line())?;
    text.push(b'\n')?;
    push_broken(text, reason.broken())
}

/// Appends reasons, one after the other.
fn push_reasons(text: &mut Vec<u8>, reasons: &[Reason]) -> Result<(), NoMemory>
    ensures { OnOk result (text.new.items ≡ text.old.items ++ reasons_text reasons.now) }
{
    for reason in reasons {
        push_reason(text, reason)?;
    }
    Ok(())
}

/// The text of what would make a trip cheaper in an edition.
#[tactic(auto, unfolding(crate::specs::WhyText::why_text))]
fn told(alloc: Global, edition: &Edition, why: &Why) -> Result<Vec<u8>, NoMemory>
    ensures { IfOk result (λ text. text.items ≡ why_text edition.now why.now) }
{
    let mut text = Vec::new(alloc);
    push_edition(&mut text, edition)?;
    push_best(&mut text, why.total())?;
    push_reasons(&mut text, why.reasons())?;
    Ok(text)
}

/// The text in an edition that knows all points of the trip.
fn why_placed<R: Threads + Sync, Q: Quoter>(
    rt: &R,
    alloc: Global,
    searches: &Searches<'_, Q>,
    edition: &Edition,
    trip: &Trip,
) -> Result<Vec<u8>, NoMemory>
    requires { 0 < searches.now.threads }
    ensures { IfOk result (λ text. WhyPlaced trip.now edition.now text.items) }
{
    let found = why(rt, alloc, searches, edition, trip)?;
    told(alloc, edition, &found)
}

/// The line that names the edition that a trip's sale day selects, the price of its best construction or `NO FARE`, and
/// the reasons why it isn't cheaper; or why there is no such edition, as `edition_for` answers it.
#[tactic(auto, unfolding(crate::specs::WhyText::WhyOver))]
pub fn why_text<R: Threads + Sync, Q: Quoter>(
    rt: &R,
    alloc: Global,
    book: &Book,
    searches: &Searches<'_, Q>,
    trip: &Trip,
) -> Result<Vec<u8>, QuoteFault>
    requires some { 0 < searches.now.threads }
    ensures { Answers (WhyOver book.now.editions trip.now) result }
{
    match edition_for(book, trip) {
        Ok(edition) => Ok(why_placed(rt, alloc, searches, edition, trip)?),
        Err(fault) => Err(fault),
    }
}
