ghost use Rattle.std.specs.Prelude.{ℕ, ◌<◌, ◌≤◌, length, slice_index_or};
ghost use Rattle.fare_rounds.specs.declared.entry.Entry.{Entry};
ghost use Rattle.fare_rounds.specs.Entries.{IsViewed, ViewsRound};

use crate::{Entry, Round};
use fare_http::{Front, Request};
use std::alloc::Global;
use std::thread;
use std::thread::Threads;

/// A body of so many bytes is an itinerary of some four sectors, whose quotation takes longer than a thread's start.
const LONG_BODY: usize = 400;

/// What stands in the paths that ask for an edition's records.
const OF_EDITION: &str = "/editions/";

impl Round {
    /// Answers each whole request but `POST /editions`, side by side.
    pub fn view_all<R: Threads + Sync, F: Front>(&mut self, rt: &R, alloc: Global, front: &F)
        ensures { ViewsRound (F.reply front.now) self.old self.new }
    {
        view_each(rt, alloc, self.entries.as_mut_slice(), front);
    }
}

fn view_each<R: Threads + Sync, F: Front>(rt: &R, alloc: Global, entries: &mut [Entry], front: &F)
    ensures { (i : ℕ) (d : Entry) → i < length entries.old → IsViewed (F.reply front.now)
        (slice_index_or entries.old i d) (slice_index_or entries.new i d) }
{
    let threads = threads_for(entries);
    thread::for_each_mut(
        rt,
        entries,
        threads,
        &|_, entry: &mut Entry| { entry.view(rt, alloc, front) },
    );
}

/// How many threads a round is worth: one for each request that takes longer than a thread's start, and one at least.
fn threads_for(entries: &[Entry]) -> usize
    ensures { 1 ≤ result }
{
    let mut threads: usize = 0;
    for entry in entries {
        if let Some(request) = &entry.request
            && is_long(request)
        {
            threads = threads.saturating_add(1);
        }
    }
    threads.max(1)
}

/// Whether a request takes longer than a thread's start: its body has an itinerary of some sectors, or it asks for an
/// edition's records.
fn is_long(request: &Request) -> bool {
    request.body.as_slice().len() >= LONG_BODY || request.path.as_str().contains(OF_EDITION)
}
