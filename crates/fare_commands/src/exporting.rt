//! The command `export`.

ghost use Rattle.fare_ports.specs.Keeper.{BodiesStay, WhereTold};
ghost use Rattle.fare_commands.specs.Answer.{IsDoneOr};
ghost use Rattle.fare_commands.specs.Ends.{IsRefusalOfExport};
ghost use Rattle.fare_commands.specs.Opened.{Names};
ghost use Rattle.fare_commands.specs.Steps.{Answers, IsEndOfExport, IsKeeping};
ghost use Rattle.fare_commands.specs.StoreOutcome.{AnswersOver, Exports};
ghost use Rattle.fare_commands.specs.StoreSteps.{AnswersReading};

use crate::context::Context;
use crate::exit::Exit;
use crate::outcome::Outcome;
use crate::store::book_of;
use fare_book::Book;
use fare_csv::edition_text;
use fare_ports::Keeper;
use std::alloc::Global;
use std::thread::Threads;

/// Writes the edition of a number of a store.
pub fn export<R: Threads + Sync, P: Keeper>(
    context: &Context<'_, R>,
    store: &mut P,
    name: &str,
    number: u32,
) -> Result<Outcome, Exit>
    ensures answer { AnswersReading (P.bodies store.old) (P.bodies store.new) (AnswersOver (Exports number)) result }
    ensures ends { IsDoneOr IsRefusalOfExport result }
    ensures bodies { WhereTold (P.bodies store.old) (P.bodies store.new) BodiesStay }
    ensures name { Names name.now (P.opened_as store.old) (P.opened_as store.new) result }
    ensures keeping { IsKeeping result (P.faults store.old) (P.faults store.new) }
{
    let book = book_of(context, store, name)?;
    export_of(context.alloc, &book, number)
}

/// The canonical text of the edition of a number in a book.
fn export_of(alloc: Global, book: &Book, number: u32) -> Result<Outcome, Exit>
    ensures answer { Answers (Exports number book.now.editions) result }
    ensures ends { IsDoneOr IsEndOfExport result }
{
    match book.find(number) {
        None => Err(Exit::NoSuch(number)),
        Some(edition) => Ok(Outcome::done(edition_text(alloc, edition)?)),
    }
}
