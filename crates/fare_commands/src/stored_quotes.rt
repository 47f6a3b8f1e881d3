//! The command `quote`.

ghost use Rattle.std.specs.Prelude.{IfSome, IsErrOf};
ghost use Rattle.fare_ports.specs.Keeper.{BodiesStay, WhereTold};
ghost use Rattle.fare_words.specs.WithinLimits.{IsFew};
ghost use Rattle.fare_commands.specs.Answer.{IsDoneOr};
ghost use Rattle.fare_commands.specs.Ends.{IsRefusalOfQuote};
ghost use Rattle.fare_commands.specs.Opened.{Names};
ghost use Rattle.fare_commands.specs.Readable.{HoldsItinerary, IsItinerary};
ghost use Rattle.fare_commands.specs.Steps.{IsEndOnceRead, IsKeeping, IsReading};
ghost use Rattle.fare_commands.specs.StoreOutcome.{AnswersItineraryOver, AnswersQuote};
ghost use Rattle.fare_commands.specs.StoreSteps.{AnswersReading};

use crate::context::Context;
use crate::exit::Exit;
use crate::input::trip_in;
use crate::limits::MOST_ITINERARY;
use crate::outcome::Outcome;
use crate::quote::{Question, quote};
use crate::source::source_up_to;
use crate::store::book_of;
use fare_ports::{Keeper, Source};
use std::thread::Threads;

/// Tells what is asked of the itinerary of the source over a store.
pub fn stored_quote<R: Threads + Sync, S: Source, P: Keeper>(
    context: &Context<'_, R>,
    src: &mut S,
    store: &mut P,
    name: &str,
    question: Question,
) -> Result<Outcome, Exit>
    requires { IsFew question.asked }
    ensures answer { IfSome (S.left src.old) (λ source. AnswersReading (P.bodies store.old) (P.bodies store.new)
        (AnswersQuote question.asked question.json source) result) }
    ensures ends { IsDoneOr IsRefusalOfQuote result }
    ensures reading { IsReading MOST_ITINERARY result
        (S.left src.old) (S.left src.new) (S.faults src.old) (S.faults src.new) }
    ensures bodies { WhereTold (P.bodies store.old) (P.bodies store.new) BodiesStay }
    ensures name { Names name.now (P.opened_as store.old) (P.opened_as store.new) result }
    ensures keeping { IsKeeping result (P.faults store.old) (P.faults store.new) }
    ensures keeper_last { IsErrOf result Exit.KeeperFault → IfSome (S.left src.old) (HoldsItinerary MOST_ITINERARY) }
{
    let source = source_up_to(context.alloc, src, MOST_ITINERARY as usize)?;
    quote_of(context, source.as_slice(), store, name, question)
}

/// What is asked of an itinerary text over a store.
fn quote_of<R: Threads + Sync, P: Keeper>(
    context: &Context<'_, R>,
    source: &[u8],
    store: &mut P,
    name: &str,
    question: Question,
) -> Result<Outcome, Exit>
    requires { IsFew question.asked }
    ensures answer { AnswersReading (P.bodies store.old) (P.bodies store.new)
        (AnswersItineraryOver question.asked question.json source.now) result }
    ensures ends { IsDoneOr (IsEndOnceRead IsRefusalOfQuote) result }
    ensures bodies { WhereTold (P.bodies store.old) (P.bodies store.new) BodiesStay }
    ensures name { Names name.now (P.opened_as store.old) (P.opened_as store.new) result }
    ensures keeping { IsKeeping result (P.faults store.old) (P.faults store.new) }
    ensures keeper_last { IsErrOf result Exit.KeeperFault → IsItinerary source.now }
{
    let trip = trip_in(context.alloc, source)?;
    let book = book_of(context, store, name)?;
    quote(context, &book, &trip, question)
}
