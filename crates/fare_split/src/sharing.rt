//! How many workers share a search.

ghost use Rattle.std.specs.Prelude.{◌≡◌, ◌≤◌};
ghost use Rattle.fare_split.specs.Sharing.{workers_for};

use fare_codes::MOST_WORKERS;

/// How much work a search is at least that is shared out. Less is mostly done before a thread has started.
pub const LEAST_SHARED_WORK: u64 = 32;

/// How many of some workers share a search of so much work: one where it is little, and else all.
pub(crate) fn workers_for(workers: u32, work: u64) -> u32
    requires some { 1 ≤ workers }
    requires few { workers ≤ MOST_WORKERS }
    ensures value { result ≡ workers_for workers work }
    ensures some { 1 ≤ result }
    ensures few { result ≤ MOST_WORKERS }
{
    if work < LEAST_SHARED_WORK { 1 } else { workers }
}
