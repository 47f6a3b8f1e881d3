//! The command `list`.

ghost use Rattle.fare_ports.specs.Keeper.{BodiesStay, WhereTold};
ghost use Rattle.fare_commands.specs.Answer.{IsDoneOr};
ghost use Rattle.fare_commands.specs.Ends.{IsRefusalOfList};
ghost use Rattle.fare_commands.specs.Opened.{Names};
ghost use Rattle.fare_commands.specs.Steps.{Answers, IsEndOfList, IsKeeping};
ghost use Rattle.fare_commands.specs.StoreOutcome.{AnswersOver, Lists};
ghost use Rattle.fare_commands.specs.StoreSteps.{AnswersReading};

use crate::context::Context;
use crate::exit::Exit;
use crate::outcome::Outcome;
use crate::store::book_of;
use fare_answers::list_text;
use fare_book::Book;
use fare_json::list_json;
use fare_ports::Keeper;
use std::alloc::Global;
use std::thread::Threads;

/// Lists the editions of a store.
pub fn list<R: Threads + Sync, P: Keeper>(
    context: &Context<'_, R>,
    store: &mut P,
    name: &str,
    json: bool,
) -> Result<Outcome, Exit>
    ensures answer { AnswersReading (P.bodies store.old) (P.bodies store.new) (AnswersOver (Lists json)) result }
    ensures ends { IsDoneOr IsRefusalOfList result }
    ensures bodies { WhereTold (P.bodies store.old) (P.bodies store.new) BodiesStay }
    ensures name { Names name.now (P.opened_as store.old) (P.opened_as store.new) result }
    ensures keeping { IsKeeping result (P.faults store.old) (P.faults store.new) }
{
    let book = book_of(context, store, name)?;
    listed(context.alloc, &book, json)
}

/// The list of a book.
fn listed(alloc: Global, book: &Book, json: bool) -> Result<Outcome, Exit>
    ensures answer { Answers (Lists json book.now.editions) result }
    ensures ends { IsDoneOr IsEndOfList result }
{
    if json {
        return Ok(Outcome::done(list_json(alloc, book)?));
    }
    Ok(Outcome::done(list_text(alloc, book)?))
}
