ghost use Rattle.std.specs.Prelude.{◌≡◌, ◌≢◌, ◌≤◌, ◌+◌, [], List, None, IfSome, length, map, min};
ghost use Rattle.fare_ports.specs.Cause.{Rose};
ghost use Rattle.fare_ports.specs.Door.{NoneWaits};
ghost use Rattle.fare_rounds.specs.Finishing.{cut_count, served_count};
ghost use Rattle.fare_rounds.specs.Rounds.{Exchanged, IsRound, failures_of};
ghost use Rattle.fare_rounds.specs.Taking.{RoseBy, TakesEach, with_lists};

use crate::{Counts, DoorEnd, Round, take_round};
use fare_http::Handler;
use fare_ports::{Door, MOST_HELD};
use std::alloc::Global;
use std::thread::Threads;

/// A handler of which the requests that change nothing can be answered side by side.
pub trait RoundHandler: Handler {
    ghost use Rattle.std.specs.Prelude.{◌≡◌, IfSome, List, Option, false, ℕ};
    ghost use Rattle.fare_http.specs.declared.reply.Reply.{Reply};
    ghost use Rattle.fare_rounds.specs.Entries.{ViewsRound, is_publication};
    ghost use Rattle.std.specs.Thread.{IsSync};

    /// Which reply a request of a method, a path and a body has, if it isn't a `POST /editions`.
    ghost reply: { Self → List ℕ → List ℕ → List ℕ → Reply → Type 0 };

    /// Answers each whole request of a round but `POST /editions`, by `Round::view_all`.
    fn view<R: Threads + Sync>(&self, rt: &R, alloc: Global, round: &mut Round)
        requires { IsSync R.row }
        ensures { ViewsRound (reply self.now) round.old round.new };

    /// The handler, where it is asked, has the same reply or finds memory wanting, and stays as it is.
    ghost shows: { (handler : Self) (method path body : List ℕ) (answer : Option Reply) →
        is_publication method path ≡ false → IfSome answer (reply handler method path body) →
        Self.step handler method path body answer handler };
}

/// Serves one round of at most `most` connections, and says how the door ended it and how many exchanges ended in which
/// way. The connections taken before `NoMore` or `Failed` are served. A failed read or write cuts off its own exchange
/// alone, and is counted by the door.
pub fn serve_round<R: Threads + Sync, D: Door, H: RoundHandler>(
    rt: &R,
    alloc: Global,
    door: &mut D,
    handler: &mut H,
    most: u32,
) -> (DoorEnd, Counts)
    requires some { 1 ≤ most }
    requires few { most ≤ MOST_HELD }
    requires none_held { D.held door.old ≡ [] }
    ensures round { (round : List Exchanged)
        × IsRound H.step handler.old handler.old round handler.new
        × RoseBy (failures_of round) (D.cuts door.old) (D.cuts door.new)
        × TakesEach (D.waiting door.old) (D.waiting door.new) (map (λ exchanged. exchanged.connection) round)
        × (D.sent door.new ≡ with_lists (map (λ exchanged. exchanged.sent) round) (D.sent door.old))
        × (result.1.served ≡ served_count (map (λ exchanged. exchanged.ending) round))
        × (result.1.cut ≡ cut_count (map (λ exchanged. exchanged.ending) round)) }
    ensures most { result.1.served + result.1.cut ≤ most }
    ensures open { result.0 ≡ DoorEnd.Open → 1 ≤ result.1.served + result.1.cut }
    ensures no_more { result.0 ≡ DoorEnd.NoMore → NoneWaits (D.waiting door.new) }
    ensures none_waited { result.0 ≡ DoorEnd.NoMore → IfSome (D.waiting door.old) (λ lists. lists ≡ []) }
    ensures failed { result.0 ≡ DoorEnd.Failed → Rose (D.faults door.old) (D.faults door.new) }
    ensures all { result.0 ≢ DoorEnd.Failed →
        IfSome (D.waiting door.old) (λ lists. result.1.served + result.1.cut ≡ min most (length lists)) }
    ensures none_held { D.held door.new ≡ [] }
    ensures none_current { D.current door.new ≡ None }
    ensures never_falls { D.cuts door.old ≤ D.cuts door.new }
    ensures port { D.listens_at door.new ≡ D.listens_at door.old }
    ensures faults { D.faults door.old ≤ D.faults door.new }
{
    let (mut round, end) = take_round(alloc, door, most);
    handler.view(rt, alloc, &mut round);
    let counts = round.finish(rt, alloc, door, handler);
    (end, counts)
}
