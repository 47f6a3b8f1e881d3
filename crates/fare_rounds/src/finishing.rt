ghost use Rattle.std.specs.Prelude.{◌≡◌, ◌≤◌, ◌+◌, [], List, None, length, map};
ghost use Rattle.fare_rounds.specs.Finishing.{Answered, Answers, InTurn, cut_count, served_count};

use crate::{Counts, Entry, Round};
use fare_http::{Handler, send};
use fare_ports::{Door, MOST_HELD};
use std::alloc::Global;
use std::thread::Threads;

impl Round {
    /// Hands each `POST /editions` to the handler in the order of arrival, and then answers each entry on its
    /// connection, in the order in which the door holds them: with its reply, or with that for want of memory where it
    /// has none.
    pub fn finish<R: Threads + Sync, D: Door, H: Handler>(
        mut self,
        rt: &R,
        alloc: Global,
        door: &mut D,
        handler: &mut H,
    ) -> Counts
        requires { length (D.held door.old) ≡ length self.entries }
        ensures answered { (answered : List Answered)
            × InTurn H.step self.entries handler.old (map (λ answer. answer.reply) answered) handler.new
            × Answers (D.held door.old) (D.sent door.old) (D.sent door.new) (D.cuts door.old) (D.cuts door.new) answered
            × (result.served ≡ served_count (map (λ answer. answer.ending) answered))
            × (result.cut ≡ self.cut + cut_count (map (λ answer. answer.ending) answered)) }
        ensures none_held { D.held door.new ≡ [] }
        ensures none_current { D.current door.old ≡ None → D.current door.new ≡ None }
        ensures waiting { D.waiting door.new ≡ D.waiting door.old }
        ensures port { D.listens_at door.new ≡ D.listens_at door.old }
        ensures faults { D.faults door.new ≡ D.faults door.old }
        ensures never_falls { D.cuts door.old ≤ D.cuts door.new }
    {
        publish_each(rt, alloc, self.entries.as_mut_slice(), handler);
        send_each(door, self.entries.as_slice(), self.cut)
    }
}

/// Lets the handler answer each `POST /editions`, in order.
fn publish_each<R: Threads + Sync, H: Handler>(
    rt: &R,
    alloc: Global,
    entries: &mut [Entry],
    handler: &mut H,
)
    ensures { InTurn H.step entries.old handler.old (map (λ entry. entry.reply) entries.new) handler.new }
{
    'entries: for entry in entries.iter_mut() {
        entry.publish(rt, alloc, handler);
    }
}

/// Answers each entry on the connection of its place, and counts the exchanges with those that were cut off before.
fn send_each<D: Door>(door: &mut D, entries: &[Entry], cut: u32) -> Counts
    requires held { length (D.held door.old) ≡ length entries.now }
    requires few { length entries.now + cut ≤ MOST_HELD }
    ensures answered { (answered : List Answered)
        × (map (λ answer. answer.reply) answered ≡ map (λ entry. entry.reply) entries.now)
        × Answers (D.held door.old) (D.sent door.old) (D.sent door.new) (D.cuts door.old) (D.cuts door.new) answered
        × (result.served ≡ served_count (map (λ answer. answer.ending) answered))
        × (result.cut ≡ cut + cut_count (map (λ answer. answer.ending) answered)) }
    ensures none_held { D.held door.new ≡ [] }
    ensures none_current { D.current door.old ≡ None → D.current door.new ≡ None }
    ensures waiting { D.waiting door.new ≡ D.waiting door.old }
    ensures port { D.listens_at door.new ≡ D.listens_at door.old }
    ensures faults { D.faults door.new ≡ D.faults door.old }
    ensures never_falls { D.cuts door.old ≤ D.cuts door.new }
{
    let mut counts = Counts { served: 0, cut };
    'entries: for entry in entries {
        let _ = door.resume();
        counts.add(send(door, entry.reply.as_ref()));
    }
    counts
}
