//! The store of a command: it is opened, and its book restored.

ghost use Rattle.std.specs.Prelude.{◌≡◌, true, IfErr, IfOk, IsTrue, OnOk};
ghost use Rattle.fare_ports.specs.Keeper.{BodiesStay, WhereTold};
ghost use Rattle.fare_commands.specs.Opened.{Names};
ghost use Rattle.fare_commands.specs.Steps.{IsKeeping};
ghost use Rattle.fare_commands.specs.StoreSteps.{AreStored, IsEndOfOpening};

use crate::context::Context;
use crate::exit::Exit;
use fare_book::Book;
use fare_ports::Keeper;
use std::thread::Threads;

/// The settled book of the store of a name, which is opened. It leaves the bodies.
pub fn book_of<R: Threads + Sync, P: Keeper>(
    context: &Context<'_, R>,
    store: &mut P,
    name: &str,
) -> Result<Book, Exit>
    ensures editions { IfOk result (λ book. AreStored (P.bodies store.new) book.editions) }
    ensures settled { IfOk result (λ book. book.settled ≡ true) }
    ensures ends { IfErr result (IsEndOfOpening (P.bodies store.new)) }
    ensures bodies { WhereTold (P.bodies store.old) (P.bodies store.new) BodiesStay }
    ensures ready { OnOk result (IsTrue (P.ready store.new)) }
    ensures name { Names name.now (P.opened_as store.old) (P.opened_as store.new) result }
    ensures keeping { IsKeeping result (P.faults store.old) (P.faults store.new) }
{
    store.open(context.alloc, name)?;
    Ok(Book::restore(context.rt, context.alloc, store)?)
}
