//! Connections are served over the book of a store.

ghost use Rattle.std.specs.Prelude.{◌≡◌, ◌≤◌, [], Err, vec_capacity, IsTrue, OnErr};
ghost use Rattle.fare_ports.specs.Cause.{Rose};
ghost use Rattle.fare_serve.specs.Desk.{ServesBook, world_of};
ghost use Rattle.fare_serve.specs.Service.{ServesPort, door_state, summary};

use crate::rounds::serve_rounds;
use crate::{ServeFault, ServedDesk, Service};
use fare_book::Book;
use fare_codes::{MOST_WORKERS, number_text};
use fare_counter::CounterRoutes;
use fare_desk::Routes;
use fare_ports::{Door, Failed, Keeper, MOST_HELD};
use fare_rounds::{Counts, DoorEnd, RoundHandler};
use fare_split::SplitQuoter;
use std::alloc::Global;
use std::thread::Threads;

/// The most bytes of a summary.
const MOST_SUMMARY: usize = 64;

/// Serves connections over a book and its keeper, which is ready, and answers how many were served and cut off. Nobody
/// is let in unless the door listens at the port that was asked for. All memory but that of the answers is taken before
/// the door is asked to listen: where it is wanting, the door and the keeper are left alone.
pub fn serve<R: Threads + Sync, P: Keeper, D: Door>(
    rt: &R,
    alloc: Global,
    book: Book,
    keeper: &mut P,
    door: &mut D,
    service: &Service<'_>,
) -> Result<Vec<u8>, ServeFault>
    requires some { 1 ≤ service.now.round }
    requires few { service.now.round ≤ MOST_HELD }
    requires some_workers { 1 ≤ service.now.workers }
    requires few_workers { service.now.workers ≤ MOST_WORKERS }
    requires none_held { D.held door.old ≡ [] }
    requires ready { IsTrue (P.ready keeper.old) }
    ensures serves { ServesBook service.now.count service.now.round service.now.port book
        (world_of (door_state (D.waiting door.old) (D.sent door.old) (D.listens_at door.old)
        (D.faults door.old) (D.cuts door.old))
        (P.bodies keeper.old) (P.faults keeper.old))
        (world_of (door_state (D.waiting door.new) (D.sent door.new) (D.listens_at door.new)
        (D.faults door.new) (D.cuts door.new))
        (P.bodies keeper.new) (P.faults keeper.new))
        result }
    ensures nobody { result ≡ Err ServeFault.Memory → door.new ≡ door.old }
    ensures kept { result ≡ Err ServeFault.Memory → keeper.new ≡ keeper.old }
    ensures cause { result ≡ Err ServeFault.Door → Rose (D.faults door.old) (D.faults door.new) }
    ensures faults { D.faults door.old ≤ D.faults door.new }
    ensures cuts { D.cuts door.old ≤ D.cuts door.new }
    ensures keeper_faults { P.faults keeper.old ≤ P.faults keeper.new }
    ensures name { P.opened_as keeper.new ≡ P.opened_as keeper.old }
{
    let routes = Routes::new(alloc)?;
    let own = CounterRoutes::new(alloc)?;
    let Ok(room) = Vec::with_capacity(alloc, MOST_SUMMARY) else {
        return Err(ServeFault::Memory);
    };
    let quoter = SplitQuoter::new(service.workers, service.gate);
    let mut served = ServedDesk::over(own, routes, book, keeper, quoter);
    let text = serve_desk(rt, alloc, door, &mut served, service, room);
    let _keeper = served.into_keeper();
    text
}

/// Serves connections by a desk, which keeps its keeper.
fn serve_desk<R: Threads + Sync, P: Keeper, D: Door>(
    rt: &R,
    alloc: Global,
    door: &mut D,
    served: &mut ServedDesk<'_, P>,
    service: &Service<'_>,
    room: Vec<u8>,
) -> Result<Vec<u8>, ServeFault>
    requires some { 1 ≤ service.now.round }
    requires few { service.now.round ≤ MOST_HELD }
    requires none_held { D.held door.old ≡ [] }
    requires empty { room.items ≡ [] }
    requires room { MOST_SUMMARY ≤ vec_capacity room }
    ensures same_reference { served.new.counter.desk.keeper.ghost_name ≡ served.old.counter.desk.keeper.ghost_name }
    ensures serves { ServesBook service.now.count service.now.round service.now.port served.old.counter.desk.book
        (world_of (door_state (D.waiting door.old) (D.sent door.old) (D.listens_at door.old)
        (D.faults door.old) (D.cuts door.old))
        (P.bodies served.old.counter.desk.keeper.now) (P.faults served.old.counter.desk.keeper.now))
        (world_of (door_state (D.waiting door.new) (D.sent door.new) (D.listens_at door.new)
        (D.faults door.new) (D.cuts door.new))
        (P.bodies served.new.counter.desk.keeper.now) (P.faults served.new.counter.desk.keeper.now))
        result }
    ensures ends { OnErr result (result ≡ Err ServeFault.Door) }
    ensures cause { OnErr result (Rose (D.faults door.old) (D.faults door.new)) }
    ensures faults { D.faults door.old ≤ D.faults door.new }
    ensures cuts { D.cuts door.old ≤ D.cuts door.new }
    ensures keeper_faults { P.faults served.old.counter.desk.keeper.now ≤ P.faults served.new.counter.desk.keeper.now }
    ensures name { P.opened_as served.new.counter.desk.keeper.now ≡ P.opened_as served.old.counter.desk.keeper.now }
{
    match serve_port(rt, alloc, door, served, service, room) {
        Ok(text) => Ok(text),
        Err(Failed) => Err(ServeFault::Door),
    }
}

/// Listens, serves the connections by a handler, and writes the summary in this room. It takes no memory of its own.
fn serve_port<R: Threads + Sync, D: Door, H: RoundHandler>(
    rt: &R,
    alloc: Global,
    door: &mut D,
    handler: &mut H,
    service: &Service<'_>,
    room: Vec<u8>,
) -> Result<Vec<u8>, Failed>
    requires some { 1 ≤ service.now.round }
    requires few { service.now.round ≤ MOST_HELD }
    requires none_held { D.held door.old ≡ [] }
    requires empty { room.items ≡ [] }
    requires room { MOST_SUMMARY ≤ vec_capacity room }
    ensures serves { ServesPort H.step service.now.count service.now.round service.now.port handler.old handler.new
        (door_state (D.waiting door.old) (D.sent door.old) (D.listens_at door.old)
        (D.faults door.old) (D.cuts door.old))
        (door_state (D.waiting door.new) (D.sent door.new) (D.listens_at door.new)
        (D.faults door.new) (D.cuts door.new))
        result }
    ensures cause { OnErr result (Rose (D.faults door.old) (D.faults door.new)) }
    ensures faults { D.faults door.old ≤ D.faults door.new }
    ensures cuts { D.cuts door.old ≤ D.cuts door.new }
{
    if door.listen(service.port).is_err() {
        return Err(Failed);
    }
    let (end, counts) = serve_rounds(rt, alloc, door, handler, service);
    if end == DoorEnd::Failed {
        return Err(Failed);
    }
    Ok(summary_in(room, counts))
}

/// The summary of counts, in this room.
fn summary_in(mut room: Vec<u8>, counts: Counts) -> Vec<u8>
    requires empty { room.items ≡ [] }
    requires room { MOST_SUMMARY ≤ vec_capacity room }
    ensures { result.items ≡ summary counts.served counts.cut }
{
    room.extend_from_slice(b"SERVED ").unwrap();
    room.extend_from_slice(number_text(counts.served).as_str().as_bytes())
        .unwrap();
    room.extend_from_slice(b" CUT ").unwrap();
    room.extend_from_slice(number_text(counts.cut).as_str().as_bytes())
        .unwrap();
    room.push(b'\n').unwrap();
    room
}
