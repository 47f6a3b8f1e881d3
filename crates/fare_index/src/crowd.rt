//! How many places have one slot, counted in the pass that links them. Nothing is known of a count: it decides how fast
//! look-ups are, and not what they answer.

use crate::link::Link;
use fare_ports::NoMemory;
use std::alloc::Global;

/// With more places than these in one slot a list is linked by the order of its hashes. An edition has at most 64
/// records of one key, so three keys may share a slot by chance.
const MOST_IN_SLOT: u8 = 192;

/// With more places than these, in the mean of all keys, behind a place in its slot it is too. Where each key has 64
/// records there are 32.
const MOST_BEHIND: usize = 40;

/// For each place how many of its slot stand there and behind it, the most of them behind one, and the sum of all.
#[derive(Drop)]
pub(crate) struct Crowd {
    counts: Vec<u8>,
    most: u8,
    sum: usize,
}

impl Crowd {
    /// Of so many places none was linked yet.
    pub(crate) fn new(alloc: Global, places: usize) -> Result<Crowd, NoMemory> {
        Ok(Crowd {
            counts: vec![in alloc; 0; places.saturating_add(1)]?,
            most: 0,
            sum: 0,
        })
    }

    /// A place is linked to a later one of its slot, or to nothing.
    pub(crate) fn note(&mut self, place: usize, later: Link) {
        let behind = self.counts.get(later.number()).copied().unwrap_or(0);
        if let Some(count) = self.counts.get_mut(place.saturating_add(1)) {
            *count = behind.saturating_add(1);
        }
        self.most = self.most.max(behind);
        self.sum = self.sum.saturating_add(behind as usize);
    }

    /// Whether some slot has too many places, or all slots together.
    pub(crate) fn is_too_great(&self) -> bool {
        self.most >= MOST_IN_SLOT || self.sum > self.counts.len().saturating_mul(MOST_BEHIND)
    }
}
