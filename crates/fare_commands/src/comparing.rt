//! The command `compare`.

ghost use Rattle.std.specs.Prelude.{IfSome, IsErrOf};
ghost use Rattle.serde_json.specs.View.{items_view};
ghost use Rattle.fare_ports.specs.Keeper.{BodiesStay, WhereTold};
ghost use Rattle.fare_changes.specs.Items.{items_of, items_seen};
ghost use Rattle.fare_commands.specs.Answer.{IsDoneOr};
ghost use Rattle.fare_commands.specs.declared.exit.Exit.TheVariants.{BadTrip};
ghost use Rattle.fare_commands.specs.Ends.{IsRefusalOfCompare};
ghost use Rattle.fare_commands.specs.Opened.{Names};
ghost use Rattle.fare_commands.specs.PairOutcome.{AnswersBatchOver, AnswersCompare, AnswersPair, Compares, IsBatch};
ghost use Rattle.fare_commands.specs.Readable.{HoldsBatch};
ghost use Rattle.fare_commands.specs.Steps.{Answers, HandsOnAs, IsEndOfExport, IsEndOnceRead, IsKeeping, IsReading};
ghost use Rattle.fare_commands.specs.StoreSteps.{AnswersReading};

use crate::context::Context;
use crate::exit::Exit;
use crate::outcome::Outcome;
use crate::source::source_up_to;
use crate::store::book_of;
use fare_book::Book;
use fare_branch::BranchQuoter;
use fare_changes::{Comparer, Watch, compare_text, items_of};
use fare_ports::{Keeper, MOST_TEXT, Source};
use fare_trip::TripFault;
use serde_json::Value;
use std::alloc::Global;
use std::thread::Threads;

/// What is to be compared: two editions of a store, by their numbers.
#[derive(Clone, Copy, Debug)]
pub struct Comparison<'a> {
    /// The name of the store.
    pub name: &'a str,
    /// The number of the one edition.
    pub from: u32,
    /// The number of the other edition.
    pub to: u32,
}

/// Compares what the itineraries of the source cost in two editions of a store.
pub fn compare<R: Threads + Sync, S: Source, P: Keeper, W: Watch>(
    context: &Context<'_, R>,
    src: &mut S,
    store: &mut P,
    asked: Comparison<'_>,
    watch: &mut W,
) -> Result<Outcome, Exit>
    ensures answer { IfSome (S.left src.old) (λ source. AnswersReading (P.bodies store.old) (P.bodies store.new)
        (AnswersCompare asked.entry.from asked.entry.to source) result) }
    ensures ends { IsDoneOr IsRefusalOfCompare result }
    ensures reading { IsReading MOST_TEXT result
        (S.left src.old) (S.left src.new) (S.faults src.old) (S.faults src.new) }
    ensures bodies { WhereTold (P.bodies store.old) (P.bodies store.new) BodiesStay }
    ensures name { Names asked.entry.name.now (P.opened_as store.old) (P.opened_as store.new) result }
    ensures keeping { IsKeeping result (P.faults store.old) (P.faults store.new) }
    ensures keeper_last { IsErrOf result Exit.KeeperFault → IfSome (S.left src.old) (HoldsBatch MOST_TEXT) }
{
    let source = source_up_to(context.alloc, src, MOST_TEXT as usize)?;
    compare_of(context, source.as_slice(), store, asked, watch)
}

/// Compares what the itineraries of a text cost in two editions of a store.
fn compare_of<R: Threads + Sync, P: Keeper, W: Watch>(
    context: &Context<'_, R>,
    source: &[u8],
    store: &mut P,
    asked: Comparison<'_>,
    watch: &mut W,
) -> Result<Outcome, Exit>
    ensures answer { AnswersReading (P.bodies store.old) (P.bodies store.new)
        (AnswersBatchOver asked.entry.from asked.entry.to source.now) result }
    ensures ends { IsDoneOr (IsEndOnceRead IsRefusalOfCompare) result }
    ensures bodies { WhereTold (P.bodies store.old) (P.bodies store.new) BodiesStay }
    ensures name { Names asked.entry.name.now (P.opened_as store.old) (P.opened_as store.new) result }
    ensures keeping { IsKeeping result (P.faults store.old) (P.faults store.new) }
    ensures keeper_last { IsErrOf result Exit.KeeperFault → IsBatch source.now }
{
    let items = items_in(context.alloc, source)?;
    let book = book_of(context, store, asked.name)?;
    compare_in(context, &book, asked, items.as_slice(), watch)
}

/// The itineraries of a text.
fn items_in(alloc: Global, text: &[u8]) -> Result<Vec<Value>, Exit>
    ensures { HandsOnAs items_seen BadTrip (items_of text.now) result }
{
    match items_of(alloc, text) {
        Ok(items) => Ok(items),
        Err(TripFault::Memory) => Err(Exit::Memory),
        Err(fault) => Err(Exit::BadTrip(fault)),
    }
}

/// Compares what itineraries cost in two editions of a book.
fn compare_in<R: Threads + Sync, W: Watch>(
    context: &Context<'_, R>,
    book: &Book,
    asked: Comparison<'_>,
    items: &[Value],
    watch: &mut W,
) -> Result<Outcome, Exit>
    ensures answer { Answers
        (AnswersPair (Compares (items_view items.now)) asked.entry.from asked.entry.to book.now.editions) result }
    ensures ends { IsDoneOr IsEndOfExport result }
{
    let Some(old) = book.find(asked.from) else {
        return Err(Exit::NoSuch(asked.from));
    };
    let Some(new) = book.find(asked.to) else {
        return Err(Exit::NoSuch(asked.to));
    };
    let comparer = Comparer {
        old,
        new,
        quoter: &BranchQuoter,
        threads: context.threads(),
    };
    let text = compare_text(context.rt, context.alloc, &comparer, items, watch)?;
    Ok(Outcome::done(text))
}
