//! Rounds of connections, one after the other.

ghost use Rattle.std.specs.Prelude.{◌≡◌, ◌<◌, ◌≤◌, ◌+◌, [], List};
ghost use Rattle.fare_ports.specs.Cause.{Rose};
ghost use Rattle.fare_ports.specs.Door.{NoneWaits};
ghost use Rattle.fare_rounds.specs.Rounds.{Exchanged};
ghost use Rattle.fare_serve.specs.Service.{AreRounds, IsNextRound, door_state, standing};

use crate::Service;
use fare_ports::{Door, MOST_HELD};
use fare_rounds::{Counts, DoorEnd, RoundHandler, serve_round};
use std::alloc::Global;
use std::cmp::min;
use std::thread::Threads;

/// Serves the rounds of a service until it has taken its connections, the door answers that none will come, or it
/// fails. Says how the door ended, and how many exchanges ended in which way.
pub fn serve_rounds<R: Threads + Sync, D: Door, H: RoundHandler>(
    rt: &R,
    alloc: Global,
    door: &mut D,
    handler: &mut H,
    service: &Service<'_>,
) -> (DoorEnd, Counts)
    requires some { 1 ≤ service.now.round }
    requires few { service.now.round ≤ MOST_HELD }
    requires none_held { D.held door.old ≡ [] }
    ensures rounds { (rounds : List (List Exchanged))
        × AreRounds H.step service.now.count service.now.round
        (standing handler.old
        (door_state (D.waiting door.old) (D.sent door.old) (D.listens_at door.old)
        (D.faults door.old) (D.cuts door.old)) 0 0)
        rounds
        (standing handler.new
        (door_state (D.waiting door.new) (D.sent door.new) (D.listens_at door.new)
        (D.faults door.new) (D.cuts door.new))
        result.1.served result.1.cut) }
    ensures within { result.1.served + result.1.cut ≤ service.now.count }
    ensures open { result.0 ≡ DoorEnd.Open → result.1.served + result.1.cut ≡ service.now.count }
    ensures no_more { result.0 ≡ DoorEnd.NoMore → NoneWaits (D.waiting door.new) }
    ensures failed { result.0 ≡ DoorEnd.Failed → Rose (D.faults door.old) (D.faults door.new) }
    ensures port { D.listens_at door.new ≡ D.listens_at door.old }
    ensures faults { D.faults door.old ≤ D.faults door.new }
    ensures cuts { D.cuts door.old ≤ D.cuts door.new }
{
    let count = service.count;
    let mut counts = Counts { served: 0, cut: 0 };
    'rounds: while counts.served + counts.cut < count {
        let end = serve_next(rt, alloc, door, handler, &mut counts, service);
        if end != DoorEnd::Open {
            return (end, counts);
        }
    }
    (DoorEnd::Open, counts)
}

/// Serves one round more, and counts its exchanges.
fn serve_next<R: Threads + Sync, D: Door, H: RoundHandler>(
    rt: &R,
    alloc: Global,
    door: &mut D,
    handler: &mut H,
    counts: &mut Counts,
    service: &Service<'_>,
) -> DoorEnd
    requires some { 1 ≤ service.now.round }
    requires few { service.now.round ≤ MOST_HELD }
    requires none_held { D.held door.old ≡ [] }
    requires wanted { counts.old.served + counts.old.cut < service.now.count }
    ensures round { (round : List Exchanged)
        × IsNextRound H.step service.now.count service.now.round
        (standing handler.old
        (door_state (D.waiting door.old) (D.sent door.old) (D.listens_at door.old)
        (D.faults door.old) (D.cuts door.old))
        counts.old.served counts.old.cut)
        (standing handler.new
        (door_state (D.waiting door.new) (D.sent door.new) (D.listens_at door.new)
        (D.faults door.new) (D.cuts door.new))
        counts.new.served counts.new.cut)
        round }
    ensures within { counts.new.served + counts.new.cut ≤ service.now.count }
    ensures open { result ≡ DoorEnd.Open →
        counts.old.served + counts.old.cut < counts.new.served + counts.new.cut }
    ensures no_more { result ≡ DoorEnd.NoMore → NoneWaits (D.waiting door.new) }
    ensures failed { result ≡ DoorEnd.Failed → Rose (D.faults door.old) (D.faults door.new) }
    ensures none_held { D.held door.new ≡ [] }
    ensures port { D.listens_at door.new ≡ D.listens_at door.old }
    ensures faults { D.faults door.old ≤ D.faults door.new }
    ensures cuts { D.cuts door.old ≤ D.cuts door.new }
{
    let wanted = service.count - (counts.served + counts.cut);
    let (end, round) = serve_round(rt, alloc, door, handler, min(service.round, wanted));
    counts.served += round.served;
    counts.cut += round.cut;
    end
}
