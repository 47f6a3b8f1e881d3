//! The hash of a key, and the hashes of many.

ghost use Rattle.std.specs.Prelude.{◌≡◌, ◌<◌, ℕ, true, IfOk, OnOk, length, map, slice_index_or};
ghost use Rattle.std.specs.List.{list_all};
ghost use Rattle.fare_index.specs.Hashed.{hash_of};

use crate::key::Key;
use crate::keyed::Keyed;
use crate::mark::mark;
use rayon::current_num_threads;
use std::alloc::{AllocError, Global};
use std::hash::{FoldHasher, Hash, Hasher};
use std::marker::Sync;
use std::thread;
use std::thread::Threads;

/// How many keys a thread makes or hashes at least: its start takes as long as some thousand of them.
pub const FEWEST_APART: usize = 8_192;

/// The hash of a key, whose kind and indicator are told apart by its mark.
#[tactic(auto, unfolding(crate::specs::Hashed::hash_of))]
pub(crate) fn hash_of(key: &Key) -> u64
    ensures { result ≡ hash_of key.now }
{
    let mut hasher = FoldHasher::default();
    key.hash(&mut hasher);
    hasher.finish() ^ mark(key)
}

/// How many threads hash so many keys, or make them.
pub fn threads_for<R: Threads>(rt: &R, count: usize) -> usize
    ensures { 0 < result }
{
    let shares = count / FEWEST_APART;
    if shares < 2 {
        return 1;
    }
    shares.min(current_num_threads(rt)).max(1)
}

/// Puts the hash of the key of each item at its place, on all processors. None is moved again: what each thread gathered
/// by itself would be copied into one list, and the first touch of a page costs as much as some hundred hashes.
fn put_hashes<R: Threads + Sync, T: Keyed>(rt: &R, items: &[T], hashes: &mut [u64])
    requires { length hashes.old ≡ length items.now }
    ensures { (i : ℕ) (one : T) (hash : ℕ) → i < length hashes.old →
        (slice_index_or hashes.new i hash ≡ hash_of (T.key_of (slice_index_or items.now i one)))
        × (T.holds_of (slice_index_or items.now i one) ≡ true) }
{
    thread::for_each_mut(
        rt,
        hashes,
        threads_for(rt, items.len()),
        &|place: usize, hash: &mut u64|
            requires { place < length items.now }
            ensures { (one : T) → (hash.new ≡ hash_of (T.key_of (slice_index_or items.entry.now place one)))
                × (T.holds_of (slice_index_or items.entry.now place one) ≡ true) }
        { *hash = hash_of(&items[place].key()) },
    );
}

/// The hashes of the keys of items, in the order of the items, made on all processors.
pub(crate) fn hashes_of<R: Threads + Sync, T: Keyed>(
    rt: &R,
    alloc: Global,
    items: &[T],
) -> Result<Vec<u64>, AllocError>
    ensures hashes { IfOk result (λ hashes. hashes.items ≡ map hash_of (map T.key_of items.now)) }
    ensures by_type { OnOk result (list_all T.holds_of items.now ≡ true) }
{
    let mut hashes = vec![in alloc; 0; items.len()]?;
    put_hashes(rt, items, hashes.as_mut_slice());
    Ok(hashes)
}
