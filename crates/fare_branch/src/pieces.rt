//! The first-part choices of a table: each end with each fare that may be used up to there, priced out, numbered from 0
//! by greater end and then by record number; and ranges of them.

ghost use Rattle.std.specs.Prelude.{◌≡◌, ◌≤◌, ◌<◌, ◌*◌, length, filter, map, slice_get, IfSome};
ghost use Rattle.fare_trip.specs.Itinerary.{count};
ghost use Rattle.fare_rules.specs.Completion.{first_part_choices, choices_to};
ghost use Rattle.fare_branch.specs.Beginnings.{AreCounts, begins, outward};
ghost use Rattle.fare_floors.specs.Costs.{fare_of_entry};

use fare_component::{Entry, Table};
use fare_rules::MOST_POINTS;

/// How many first-part choices end at each point.
pub(crate) type Counts = [usize; MOST_POINTS];

/// A range of the first-part choices: from the number `first` on, and below the number `past`.
#[derive(Clone, Copy, Debug)]
pub struct Piece {
    /// The number of the first choice.
    pub first: u32,
    /// The number past the last choice.
    pub past: u32,
}

/// Whether a fare may begin: it has an amount priced out.
fn begins(entry: &Entry) -> bool
    ensures { result ≡ begins entry.now }
{
    entry.out.is_some()
}

/// How many of some entries may begin.
fn count_of(entries: &[Entry]) -> usize
    ensures { result ≡ length (outward entries.now) }
{
    entries.iter().filter(|entry| begins(entry)).count()
}

/// The fare of the entry that is the `n`th, from 0, of those that may begin.
fn nth_of(entries: &[Entry], n: usize) -> Option<u32>
    ensures { result ≡ slice_get (map fare_of_entry (outward entries.now)) n }
{
    let mut left = n;
    for entry in entries {
        if !begins(entry) {
            continue;
        }
        if left == 0 {
            return Some(entry.fare);
        }
        left -= 1;
    }
    None
}

/// How many first-part choices there are.
pub fn choices(table: &Table) -> u32
    ensures { result ≡ length (first_part_choices table.now.edition table.now.trip) }
{
    let sectors = table.trip().count();
    let mut total = 0;
    for end in 1..sectors + 1 {
        total += count_of(table.entries(0, end)) as u32;
    }
    total
}

/// How many first-part choices end at each point, so that one is found by its number without going over those before.
pub(crate) fn counts_of(table: &Table) -> Counts
    ensures { AreCounts table.now.edition table.now.trip result }
{
    let mut counts = [0; MOST_POINTS];
    for end in 1..table.trip().count() + 1 {
        counts[end] = count_of(table.entries(0, end));
    }
    counts
}

/// The end and the fare of the first-part choice of a number.
pub(crate) fn choice(table: &Table, counts: &Counts, number: u32) -> Option<(usize, u32)>
    requires counts { AreCounts table.now.edition table.now.trip counts.now }
    ensures choice { result ≡ slice_get (first_part_choices table.now.edition table.now.trip) number }
    ensures within { IfSome result (λ choice. (1 ≤ choice.0) × (choice.0 ≤ count table.now.trip)) }
{
    let mut left = number as usize;
    for end in (1..table.trip().count() + 1).rev() {
        let entries = table.entries(0, end);
        let here = counts[end];
        if left < here {
            return match nth_of(entries, left) {
                None => None,
                Some(fare) => Some((end, fare)),
            };
        }
        left -= here;
    }
    None
}
