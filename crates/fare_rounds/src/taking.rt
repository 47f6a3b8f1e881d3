ghost use Rattle.std.specs.Prelude.{◌≡◌, ◌≢◌, ◌<◌, ◌≤◌, [], ◌∷◌, List, None, Ok, Err, length, min, false};
ghost use Rattle.std.specs.Prelude.{IfErr, IfSome, IsSome, OnErr, OnOk};
ghost use Rattle.fare_ports.specs.Cause.{Rose};
ghost use Rattle.fare_ports.specs.Door.{NoneWaits};
ghost use Rattle.fare_rounds.specs.Entries.{connection_count};
ghost use Rattle.fare_rounds.specs.Taking.{Arrival, Gathers, TakesNone, TakesOne, gathering, none_taken};

use crate::{DoorEnd, Entry, Round};
use fare_http::read_request;
use fare_ports::{Door, Failed, MOST_HELD};
use std::alloc::Global;

/// Takes the connections of a round, at most `most` of them: the first one, and each further one that is known to wait.
/// It reads each request in turn and holds the connection; one that is cut off is closed and counted.
///
/// Neither end loses the connections that were taken before it. `NoMore` comes exactly where the door answered that
/// none will come, and `Failed` only where its count of faults rose.
pub fn take_round<D: Door>(alloc: Global, door: &mut D, most: u32) -> (Round, DoorEnd)
    requires some { 1 ≤ most }
    requires few { most ≤ MOST_HELD }
    requires none_held { D.held door.old ≡ [] }
    ensures taken { (arrivals : List Arrival)
        × Gathers (none_taken (D.waiting door.old) (D.sent door.old) (D.cuts door.old))
        (gathering (D.waiting door.new) (D.sent door.new) (D.held door.new) (D.cuts door.new) result.0)
        arrivals }
    ensures most { connection_count result.0 ≤ most }
    ensures open { result.1 ≡ DoorEnd.Open → 1 ≤ connection_count result.0 }
    ensures no_more { result.1 ≡ DoorEnd.NoMore → NoneWaits (D.waiting door.new) }
    ensures none_waited { result.1 ≡ DoorEnd.NoMore → IfSome (D.waiting door.old) (λ lists. lists ≡ []) }
    ensures failed { result.1 ≡ DoorEnd.Failed → Rose (D.faults door.old) (D.faults door.new) }
    ensures all { result.1 ≢ DoorEnd.Failed →
        IfSome (D.waiting door.old) (λ lists. connection_count result.0 ≡ min most (length lists)) }
    ensures none_current { D.current door.new ≡ None }
    ensures never_falls { D.cuts door.old ≤ D.cuts door.new }
    ensures port { D.listens_at door.new ≡ D.listens_at door.old }
    ensures faults { D.faults door.old ≤ D.faults door.new }
{
    let mut round = Round::new();
    'connections: for taken in 0..most {
        if let Err(end) = take_next(alloc, door, &mut round, taken == 0) {
            return (round, end);
        }
    }
    (round, DoorEnd::Open)
}

/// Takes one connection more, unless the round ends before it.
fn take_next<D: Door>(
    alloc: Global,
    door: &mut D,
    round: &mut Round,
    is_first: bool,
) -> Result<(), DoorEnd>
    requires room { connection_count round.old < MOST_HELD }
    requires held { length (D.held door.old) < MOST_HELD }
    ensures taken { OnOk result ((arrival : Arrival)
        × Gathers
        (gathering (D.waiting door.old) (D.sent door.old) (D.held door.old) (D.cuts door.old) round.old)
        (gathering (D.waiting door.new) (D.sent door.new) (D.held door.new) (D.cuts door.new) round.new)
        (arrival ∷ [])) }
    ensures ended { OnErr result (TakesNone
        (gathering (D.waiting door.old) (D.sent door.old) (D.held door.old) (D.cuts door.old) round.old)
        (gathering (D.waiting door.new) (D.sent door.new) (D.held door.new) (D.cuts door.new) round.new)) }
    ensures further { result ≡ Err DoorEnd.Open → is_first ≡ false }
    ensures asked { result ≡ Err DoorEnd.NoMore → is_first ≡ false → D.waiting door.old ≡ None }
    ensures none_waits { IfErr result (λ end. end ≢ DoorEnd.Failed → NoneWaits (D.waiting door.new)) }
    ensures failed { result ≡ Err DoorEnd.Failed → Rose (D.faults door.old) (D.faults door.new) }
    ensures current { result ≡ Err DoorEnd.Open → D.current door.new ≡ D.current door.old }
    ensures none_current { result ≢ Err DoorEnd.Open → D.current door.new ≡ None }
    ensures never_falls { D.cuts door.old ≤ D.cuts door.new }
    ensures port { D.listens_at door.new ≡ D.listens_at door.old }
    ensures faults { D.faults door.old ≤ D.faults door.new }
{
    if !is_first && !door.more() {
        return Err(DoorEnd::Open);
    }
    match door.next() {
        Ok(true) => {
            round.gather(alloc, door);
            Ok(())
        }
        Ok(false) => Err(DoorEnd::NoMore),
        Err(Failed) => Err(DoorEnd::Failed),
    }
}

impl Round {
    /// Reads the request of the current connection and holds it, or closes it where it is cut off.
    fn gather<D: Door>(&mut self, alloc: Global, door: &mut D)
        requires current { IsSome (D.current door.old) }
        requires room { connection_count self.old < MOST_HELD }
        requires held { length (D.held door.old) < MOST_HELD }
        ensures taken { TakesOne (D.left door.old) (D.current door.old) (D.held door.old) (D.held door.new)
            (D.cuts door.old) (D.cuts door.new) self.old self.new }
        ensures none_current { D.current door.new ≡ None }
        ensures never_falls { D.cuts door.old ≤ D.cuts door.new }
        ensures sent { D.sent door.new ≡ D.sent door.old }
        ensures waiting { D.waiting door.new ≡ D.waiting door.old }
        ensures port { D.listens_at door.new ≡ D.listens_at door.old }
        ensures faults { D.faults door.new ≡ D.faults door.old }
    {
        match Entry::of(read_request(alloc, door)) {
            Some(entry) => {
                let _ = door.hold();
                self.entries.push(entry);
            }
            None => {
                door.close();
                self.cut += 1;
            }
        }
    }
}
