//! The command `price`.

ghost use Rattle.std.specs.Prelude.{◌≡◌, true, IfErr, IfOk, IfSome};
ghost use Rattle.fare_words.specs.WithinLimits.{IsFew};
ghost use Rattle.fare_commands.specs.Answer.{IsDoneOr};
ghost use Rattle.fare_commands.specs.CheckOutcome.{OwnExit, tariff_refusal};
ghost use Rattle.fare_commands.specs.Ends.{IsRefusalOfPrice};
ghost use Rattle.fare_commands.specs.Input.{itinerary_of};
ghost use Rattle.fare_commands.specs.PriceOutcome.{AnswersItinerary, AnswersPrice, AnswersSource};
ghost use Rattle.fare_commands.specs.Steps.{Answers, IsEndOnceRead, IsReading};

use crate::context::Context;
use crate::exit::Exit;
use crate::input::{itinerary_in, split_source};
use crate::limits::MOST_PRICED;
use crate::outcome::Outcome;
use crate::quote::{Question, quote};
use crate::source::source_up_to;
use fare_book::Book;
use fare_check::tariff_words;
use fare_csv::{TextFault, read_edition};
use fare_json::tariff_fault_json;
use fare_ports::Source;
use fare_tariff::Edition;
use std::thread::Threads;

/// Tells what is asked of the itinerary of the source's first line in the tariff behind it.
pub fn price<R: Threads + Sync, S: Source>(
    context: &Context<'_, R>,
    src: &mut S,
    question: Question,
) -> Result<Outcome, Exit>
    requires { IsFew question.asked }
    ensures answer { IfSome (S.left src.old) (λ source.
        Answers (AnswersPrice question.asked question.json source) result) }
    ensures own { IfOk result (λ ending. OwnExit (question.json ≡ true) ending.exit) }
    ensures ends { IfErr result IsRefusalOfPrice }
    ensures reading { IsReading MOST_PRICED result
        (S.left src.old) (S.left src.new) (S.faults src.old) (S.faults src.new) }
{
    let source = source_up_to(context.alloc, src, MOST_PRICED as usize)?;
    price_of(context, source.as_slice(), question)
}

/// The answer to the bytes of a source.
#[tactic(auto, unfolding(crate::specs::PriceOutcome::AnswersSource))]
fn price_of<R: Threads + Sync>(
    context: &Context<'_, R>,
    source: &[u8],
    question: Question,
) -> Result<Outcome, Exit>
    requires { IsFew question.asked }
    ensures answer { Answers (AnswersSource question.asked question.json source.now) result }
    ensures own { IfOk result (λ ending. OwnExit (question.json ≡ true) ending.exit) }
    ensures ends { IfErr result (IsEndOnceRead IsRefusalOfPrice) }
{
    let (itinerary, tariff) = split_source(source);
    match read_edition(context.rt, context.alloc, tariff) {
        Ok(edition) => price_in(context, edition, itinerary, question),
        Err(TextFault::Memory) => Err(Exit::Memory),
        Err(fault) => refused_tariff(context, tariff, fault, question.json),
    }
}

/// The answer to an itinerary in an edition.
fn price_in<R: Threads + Sync>(
    context: &Context<'_, R>,
    edition: Edition,
    itinerary: &[u8],
    question: Question,
) -> Result<Outcome, Exit>
    requires { IsFew question.asked }
    ensures answer { Answers
        (AnswersItinerary question.asked question.json edition (itinerary_of itinerary.now)) result }
    ensures ends { IsDoneOr (IsEndOnceRead IsRefusalOfPrice) result }
{
    let trip = itinerary_in(context.alloc, itinerary)?;
    let book = Book::of(context.alloc, edition)?;
    quote(context, &book, &trip, question)
}

/// The refusal of a tariff text with this first fault, which is told in JSON where that is wanted.
fn refused_tariff<R: Threads + Sync>(
    context: &Context<'_, R>,
    text: &[u8],
    fault: TextFault,
    json: bool,
) -> Result<Outcome, Exit>
    ensures answer { Answers (λ answer. answer ≡ tariff_refusal json text.now fault) result }
    ensures own { IfOk result (λ ending. OwnExit (json ≡ true) ending.exit) }
    ensures ends { IfErr result (IsEndOnceRead IsRefusalOfPrice) }
{
    if !json {
        return Err(Exit::BadTariff(fault));
    }
    let words = tariff_words(context.rt, context.alloc, text, fault)?;
    let text = tariff_fault_json(context.alloc, &fault, words.as_slice())?;
    Ok(Outcome {
        exit: Exit::BadTariff(fault),
        text,
    })
}
