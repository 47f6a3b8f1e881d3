//! The command `publish`.

ghost use Rattle.std.specs.Prelude.{◌≡◌, true, IfErr, IfSome, IsErrOf, IsTrue};
ghost use Rattle.fare_ports.specs.Keeper.{BodiesStay, ToldAfter, WhereTold};
ghost use Rattle.fare_book.specs.Publish.{IsReadable};
ghost use Rattle.fare_book.specs.Reopens.{Stay};
ghost use Rattle.fare_commands.specs.Answer.{IsDoneOr};
ghost use Rattle.fare_commands.specs.Ends.{IsRefusalOfPublish};
ghost use Rattle.fare_commands.specs.Opened.{Names};
ghost use Rattle.fare_commands.specs.Publication.{MayPublish, PublishesNothing};
ghost use Rattle.fare_commands.specs.Readable.{HoldsTariff};
ghost use Rattle.fare_commands.specs.Steps.{Answers, IsEndOnceRead, IsKeeping, IsReading};
ghost use Rattle.fare_commands.specs.StoreOutcome.{AnswersPublish, AnswersTariffOver};
ghost use Rattle.fare_commands.specs.StoreSteps.{AnswersChanging, AnswersOffer, IsEndOfOffer, MayAdd};

use crate::context::Context;
use crate::exit::Exit;
use crate::input::edition_in;
use crate::numbered_line::numbered_line;
use crate::outcome::Outcome;
use crate::source::source_up_to;
use crate::store::book_of;
use fare_book::{Book, Published};
use fare_ports::{Keeper, MOST_TEXT, Source};
use fare_tariff::Edition;
use std::thread::Threads;

/// Publishes the tariff of the source in a store.
pub fn publish<R: Threads + Sync, S: Source, P: Keeper>(
    context: &Context<'_, R>,
    src: &mut S,
    store: &mut P,
    name: &str,
) -> Result<Outcome, Exit>
    ensures answer { IfSome (S.left src.old) (λ source.
        AnswersChanging (P.bodies store.old) (P.bodies store.new) (AnswersPublish source) result) }
    ensures ends { IsDoneOr IsRefusalOfPublish result }
    ensures reading { IsReading MOST_TEXT result
        (S.left src.old) (S.left src.new) (S.faults src.old) (S.faults src.new) }
    ensures bodies { IfSome (S.left src.old) (λ source.
        WhereTold (P.bodies store.old) (P.bodies store.new) (MayPublish source)) }
    ensures refused { IfErr result (λ exit. PublishesNothing exit →
        WhereTold (P.bodies store.old) (P.bodies store.new) BodiesStay) }
    ensures name { Names name.now (P.opened_as store.old) (P.opened_as store.new) result }
    ensures keeping { IsKeeping result (P.faults store.old) (P.faults store.new) }
    ensures keeper_last { IsErrOf result Exit.KeeperFault → IfSome (S.left src.old) (HoldsTariff MOST_TEXT) }
{
    let source = source_up_to(context.alloc, src, MOST_TEXT as usize)?;
    publish_of(context, source.as_slice(), store, name)
}

/// Publishes the edition of a tariff text in a store.
fn publish_of<R: Threads + Sync, P: Keeper>(
    context: &Context<'_, R>,
    source: &[u8],
    store: &mut P,
    name: &str,
) -> Result<Outcome, Exit>
    ensures answer { AnswersChanging (P.bodies store.old) (P.bodies store.new) (AnswersTariffOver source.now) result }
    ensures ends { IsDoneOr (IsEndOnceRead IsRefusalOfPublish) result }
    ensures bodies { WhereTold (P.bodies store.old) (P.bodies store.new) (MayPublish source.now) }
    ensures refused { IfErr result (λ exit. PublishesNothing exit →
        WhereTold (P.bodies store.old) (P.bodies store.new) BodiesStay) }
    ensures name { Names name.now (P.opened_as store.old) (P.opened_as store.new) result }
    ensures keeping { IsKeeping result (P.faults store.old) (P.faults store.new) }
    ensures keeper_last { IsErrOf result Exit.KeeperFault → IsReadable source.now }
{
    let edition = edition_in(context.rt, context.alloc, source)?;
    let book = book_of(context, store, name)?;
    publish_in(context, book, store, edition)
}

/// Publishes an edition in the book of an open store. Both texts that may be the answer are made before, so that no
/// want of memory hides an edition that was stored.
fn publish_in<R: Threads + Sync, P: Keeper>(
    context: &Context<'_, R>,
    mut book: Book,
    store: &mut P,
    edition: Edition,
) -> Result<Outcome, Exit>
    requires ready { IsTrue (P.ready store.old) }
    requires settled { book.settled ≡ true }
    ensures answer { Answers (AnswersOffer book.editions edition (P.bodies store.old) (P.bodies store.new)) result }
    ensures ends { IsDoneOr IsEndOfOffer result }
    ensures bodies { ToldAfter (P.bodies store.old) (P.bodies store.new) (MayAdd book.editions edition) }
    ensures refused { IfErr result (λ exit. PublishesNothing exit → Stay (P.bodies store.old) (P.bodies store.new)) }
    ensures name { P.opened_as store.new ≡ P.opened_as store.old }
    ensures keeping { IsKeeping result (P.faults store.old) (P.faults store.new) }
{
    let number = edition.number();
    let new = numbered_line(context.alloc, b"PUBLISHED ", number)?;
    let already = numbered_line(context.alloc, b"ALREADY ", number)?;
    match book.publish_edition(context.rt, context.alloc, store, edition)? {
        Published::New(_) => Ok(Outcome::done(new)),
        Published::Already(_) => Ok(Outcome::done(already)),
    }
}
