//! Hashes in their order, and the place of one among them.

ghost use Rattle.std.specs.Prelude.{◌≡◌, ◌≤◌, length};
ghost use Rattle.fare_index.specs.Rank.{rank};

use std::alloc::{AllocError, Global};

/// Hashes in their order. Nothing is known of the answer: where a search by halves ends in it is the place of a hash,
/// whatever it holds.
pub(crate) fn sorted_hashes(alloc: Global, hashes: &[u64]) -> Result<Vec<u64>, AllocError> {
    let mut sorted = hashes.to_vec(alloc)?;
    sorted.sort_unstable();
    Ok(sorted)
}

/// Where a search by halves for a hash ends: where the hashes are in their order, at the first that isn't less.
pub(crate) fn rank(hashes: &[u64], sought: u64) -> usize
    ensures place { result ≡ rank hashes.now sought }
    ensures within { result ≤ length hashes.now }
{
    let mut low = 0;
    let mut high = hashes.len();
    while low < high {
        let middle = low + (high - low) / 2;
        if hashes[middle] < sought {
            low = middle + 1;
        } else {
            high = middle;
        }
    }
    low
}
