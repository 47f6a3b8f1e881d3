//! The command `migrate`.

ghost use Rattle.std.specs.Prelude.{◌≡◌, ◌≢◌, IfErr, IsTrue};
ghost use Rattle.fare_ports.specs.Keeper.{BodiesStay, ToldAfter, WhereTold};
ghost use Rattle.fare_book.specs.Reopens.{Stay};
ghost use Rattle.fare_commands.specs.Answer.{IsDoneOr};
ghost use Rattle.fare_commands.specs.Ends.{IsRefusalOfMigrate};
ghost use Rattle.fare_commands.specs.Opened.{Names};
ghost use Rattle.fare_commands.specs.Publication.{PublishesNothing};
ghost use Rattle.fare_commands.specs.Steps.{Answers, IsKeeping};
ghost use Rattle.fare_commands.specs.StoreOutcome.{AnswersMigrate, MayMigrate};
ghost use Rattle.fare_commands.specs.StoreSteps.{AnswersChanging, AnswersMigration};

use crate::context::Context;
use crate::exit::Exit;
use crate::numbered_line::numbered_line;
use crate::outcome::Outcome;
use crate::store::book_of;
use fare_book::Book;
use fare_ports::Keeper;
use std::thread::Threads;

/// Brings the bodies of a store into the canonical spelling of their editions, and answers how many weren't in it.
pub fn migrate<R: Threads + Sync, P: Keeper>(
    context: &Context<'_, R>,
    store: &mut P,
    name: &str,
) -> Result<Outcome, Exit>
    ensures answer { AnswersChanging (P.bodies store.old) (P.bodies store.new) AnswersMigrate result }
    ensures ends { IsDoneOr IsRefusalOfMigrate result }
    ensures bodies { WhereTold (P.bodies store.old) (P.bodies store.new) MayMigrate }
    ensures refused { IfErr result (λ exit. PublishesNothing exit → exit ≢ Exit.Memory →
        WhereTold (P.bodies store.old) (P.bodies store.new) BodiesStay) }
    ensures name { Names name.now (P.opened_as store.old) (P.opened_as store.new) result }
    ensures keeping { IsKeeping result (P.faults store.old) (P.faults store.new) }
{
    let book = book_of(context, store, name)?;
    migrate_in(context, book, store)
}

/// Migrates an open store, whose book this is.
fn migrate_in<R: Threads + Sync, P: Keeper>(
    context: &Context<'_, R>,
    mut book: Book,
    store: &mut P,
) -> Result<Outcome, Exit>
    requires { IsTrue (P.ready store.old) }
    ensures answer { Answers (AnswersMigration (P.bodies store.old) (P.bodies store.new)) result }
    ensures ends { IsDoneOr IsRefusalOfMigrate result }
    ensures bodies { ToldAfter (P.bodies store.old) (P.bodies store.new) MayMigrate }
    ensures refused { IfErr result (λ exit. PublishesNothing exit → exit ≢ Exit.Memory →
        Stay (P.bodies store.old) (P.bodies store.new)) }
    ensures name { P.opened_as store.new ≡ P.opened_as store.old }
    ensures keeping { IsKeeping result (P.faults store.old) (P.faults store.new) }
{
    let count = book.migrate(context.rt, context.alloc, store)?;
    Ok(Outcome::done(numbered_line(context.alloc, b"MIGRATED ", count)?))
}
