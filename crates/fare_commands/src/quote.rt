//! What is asked of a trip over a book, as a plain text or in JSON.

ghost use Rattle.std.specs.Prelude.{◌≡◌, ◌≤◌};
ghost use Rattle.fare_words.specs.WithinLimits.{IsFew};
ghost use Rattle.fare_words.specs.declared.asked.Asked.TheVariants as ask;
ghost use Rattle.fare_answers.specs.Answers.{Answers as Gives};
ghost use Rattle.fare_commands.specs.Answer.{IsDoneOr};
ghost use Rattle.fare_commands.specs.Steps.{Answers, IsEndOfQuoting};
ghost use Rattle.fare_commands.specs.StoreOutcome.{AnswersTrip, Tells};

use crate::context::Context;
use crate::exit::Exit;
use crate::outcome::Outcome;
use fare_answers::{QuoteFault, quote_text};
use fare_book::Book;
use fare_codes::MOST_BEST;
use fare_json::quote_json;
use fare_listing::{best_json, best_text};
use fare_trip::Trip;
use fare_why::{Searches, why_text};
use fare_why_json::why_json;
use fare_words::Asked;
use std::alloc::Global;
use std::thread::Threads;

/// What is asked of a trip, and in which form.
#[derive(Clone, Copy, Debug)]
pub struct Question {
    /// What is asked of the trip.
    pub asked: Asked,
    /// Whether the answer is wanted in JSON.
    pub json: bool,
}

impl Question {
    /// The question for this, in JSON or as a plain text.
    pub fn new(asked: Asked, json: bool) -> Question
        ensures { result ≡ record { asked = asked; json = json } }
    {
        Question { asked, json }
    }
}

/// What is asked of a trip over a book.
pub(crate) fn quote<R: Threads + Sync>(
    context: &Context<'_, R>,
    book: &Book,
    trip: &Trip,
    question: Question,
) -> Result<Outcome, Exit>
    requires { IsFew question.asked }
    ensures answer { Answers (AnswersTrip question.asked question.json trip.now book.now.editions) result }
    ensures ends { IsDoneOr IsEndOfQuoting result }
{
    Ok(Outcome::done(told(context, book, trip, question)?))
}

/// The text of what is asked of a trip over a book.
#[tactic(auto, unfolding(fare_words::specs::WithinLimits::IsFew))]
fn told<R: Threads + Sync>(
    context: &Context<'_, R>,
    book: &Book,
    trip: &Trip,
    question: Question,
) -> Result<Vec<u8>, QuoteFault>
    requires { IsFew question.asked }
    ensures { Gives (Tells question.asked question.json book.now.editions trip.now) result }
{
    match question.asked {
        Asked::Quotation => quotation(context, book, trip, question.json),
        Asked::Best(k) => first(context.alloc, book, trip, k, question.json),
        Asked::Why => why(context, book, trip, question.json),
    }
}

/// The quotation of a trip over a book.
fn quotation<R: Threads + Sync>(
    context: &Context<'_, R>,
    book: &Book,
    trip: &Trip,
    json: bool,
) -> Result<Vec<u8>, QuoteFault>
    ensures { Gives (Tells ask.Quotation json book.now.editions trip.now) result }
{
    if json {
        return quote_json(context.rt, context.alloc, book, context.quoter, trip);
    }
    quote_text(context.rt, context.alloc, book, context.quoter, trip)
}

/// The first constructions of a trip over a book.
fn first(alloc: Global, book: &Book, trip: &Trip, k: u32, json: bool) -> Result<Vec<u8>, QuoteFault>
    requires some { 1 ≤ k }
    requires few { k ≤ MOST_BEST }
    ensures { Gives (Tells (ask.Best k) json book.now.editions trip.now) result }
{
    if json {
        return best_json(alloc, book, trip, k);
    }
    best_text(alloc, book, trip, k)
}

/// Why a trip isn't cheaper over a book: all workers share the search for the best, and then have one search each.
fn why<R: Threads + Sync>(
    context: &Context<'_, R>,
    book: &Book,
    trip: &Trip,
    json: bool,
) -> Result<Vec<u8>, QuoteFault>
    ensures { Gives (Tells ask.Why json book.now.editions trip.now) result }
{
    let searches = Searches {
        quoter: context.quoter,
        threads: context.threads(),
    };
    if json {
        return why_json(context.rt, context.alloc, book, &searches, trip);
    }
    why_text(context.rt, context.alloc, book, &searches, trip)
}
