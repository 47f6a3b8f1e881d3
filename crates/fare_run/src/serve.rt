//! The command `serve`.

ghost use Rattle.std.specs.Prelude.{◌≡◌, ◌≤◌, [], IfErr, IsErrOf};
ghost use Rattle.fare_ports.specs.Cause.{Rose};
ghost use Rattle.fare_serve.specs.Desk.{world_of};
ghost use Rattle.fare_serve.specs.Service.{door_state};
ghost use Rattle.fare_commands.specs.Answer.{IsDoneOr};
ghost use Rattle.fare_commands.specs.Opened.{Names};
ghost use Rattle.fare_commands.specs.Steps.{IsKeeping};
ghost use Rattle.fare_run.specs.Ends.{IsRefusalOfServe};
ghost use Rattle.fare_run.specs.Run.{ServesNobodyAt};
ghost use Rattle.fare_run.specs.Serve.{ServesStore};

use fare_codes::MOST_WORKERS;
use fare_commands::{Context, Exit, Outcome, book_of};
use fare_ports::{Door, Keeper, MOST_HELD};
use fare_serve::{ServeFault, Service, serve as serve_book};
use std::thread::Threads;

/// Serves connections over the book of a store, and answers how many were served and cut off. The store is opened
/// before the door is asked to listen.
pub fn serve<R: Threads + Sync, P: Keeper, D: Door>(
    context: &Context<'_, R>,
    store: &mut P,
    door: &mut D,
    name: &str,
    service: &Service<'_>,
) -> Result<Outcome, Exit>
    requires some { 1 ≤ service.now.round }
    requires few { service.now.round ≤ MOST_HELD }
    requires some_workers { 1 ≤ service.now.workers }
    requires few_workers { service.now.workers ≤ MOST_WORKERS }
    requires none_held { D.held door.old ≡ [] }
    ensures serves { ServesStore service.now.count service.now.round service.now.port
        (world_of (door_state (D.waiting door.old) (D.sent door.old) (D.listens_at door.old)
        (D.faults door.old) (D.cuts door.old))
        (P.bodies store.old) (P.faults store.old))
        (world_of (door_state (D.waiting door.new) (D.sent door.new) (D.listens_at door.new)
        (D.faults door.new) (D.cuts door.new))
        (P.bodies store.new) (P.faults store.new))
        result }
    ensures ends { IsDoneOr IsRefusalOfServe result }
    ensures nobody { IfErr result (λ exit. ServesNobodyAt exit → door.new ≡ door.old) }
    ensures cause { IsErrOf result Exit.DoorFault → Rose (D.faults door.old) (D.faults door.new) }
    ensures faults { D.faults door.old ≤ D.faults door.new }
    ensures cuts { D.cuts door.old ≤ D.cuts door.new }
    ensures name { Names name.now (P.opened_as store.old) (P.opened_as store.new) result }
    ensures keeping { IsKeeping result (P.faults store.old) (P.faults store.new) }
{
    let book = book_of(context, store, name)?;
    match serve_book(context.rt, context.alloc, book, store, door, service) {
        Ok(text) => Ok(Outcome::done(text)),
        Err(ServeFault::Memory) => Err(Exit::Memory),
        Err(ServeFault::Door) => Err(Exit::DoorFault),
    }
}
