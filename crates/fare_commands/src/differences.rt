//! The command `diff`.

ghost use Rattle.fare_ports.specs.Keeper.{BodiesStay, WhereTold};
ghost use Rattle.fare_commands.specs.Answer.{IsDoneOr};
ghost use Rattle.fare_commands.specs.Ends.{IsRefusalOfDiff};
ghost use Rattle.fare_commands.specs.Opened.{Names};
ghost use Rattle.fare_commands.specs.PairOutcome.{AnswersDiff};
ghost use Rattle.fare_commands.specs.Steps.{Answers, IsEndOfExport, IsKeeping};
ghost use Rattle.fare_commands.specs.StoreOutcome.{AnswersOver};
ghost use Rattle.fare_commands.specs.StoreSteps.{AnswersReading};

use crate::context::Context;
use crate::exit::Exit;
use crate::outcome::Outcome;
use crate::store::book_of;
use fare_book::Book;
use fare_changes::diff_text;
use fare_ports::Keeper;
use std::alloc::Global;
use std::thread::Threads;

/// Tells which records of two editions of a store differ.
pub fn diff<R: Threads + Sync, P: Keeper>(
    context: &Context<'_, R>,
    store: &mut P,
    name: &str,
    from: u32,
    to: u32,
) -> Result<Outcome, Exit>
    ensures answer { AnswersReading (P.bodies store.old) (P.bodies store.new)
        (AnswersOver (AnswersDiff from to)) result }
    ensures ends { IsDoneOr IsRefusalOfDiff result }
    ensures bodies { WhereTold (P.bodies store.old) (P.bodies store.new) BodiesStay }
    ensures name { Names name.now (P.opened_as store.old) (P.opened_as store.new) result }
    ensures keeping { IsKeeping result (P.faults store.old) (P.faults store.new) }
{
    let book = book_of(context, store, name)?;
    diff_of(context.alloc, &book, from, to)
}

/// Which records of two editions of a book differ.
fn diff_of(alloc: Global, book: &Book, from: u32, to: u32) -> Result<Outcome, Exit>
    ensures answer { Answers (AnswersDiff from to book.now.editions) result }
    ensures ends { IsDoneOr IsEndOfExport result }
{
    let Some(old) = book.find(from) else {
        return Err(Exit::NoSuch(from));
    };
    let Some(new) = book.find(to) else {
        return Err(Exit::NoSuch(to));
    };
    Ok(Outcome::done(diff_text(alloc, old, new)?))
}
