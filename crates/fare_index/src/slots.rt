//! The slot of a key: by the last bits of its hash, or by the place of its whole hash among the hashes of all keys. Few
//! ordinary keys share a slot by the last bits. Whoever knows the hash may choose keys that do, hundreds of thousands;
//! there are too few keys to choose many of one whole hash.

ghost use Rattle.std.specs.Prelude.{◌≡◌, ◌<◌, ◌≤◌, IfOk};
ghost use Rattle.fare_index.specs.Slots.{hashed_slot, slot_by, slot_count, slot_of};

use crate::hashed::hash_of;
use crate::key::Key;
use crate::rank::{rank, sorted_hashes};
use std::alloc::{AllocError, Global};

/// How the slot of a key is found.
#[derive(Drop)]
pub(crate) enum Slots {
    /// By the last bits of its hash, among so many slots, a power of two.
    Hashed(usize),
    /// By the place of its hash among these, which are in their order.
    Ranked(Vec<u64>),
}

/// The slot of a hash by its last bits, among so many.
#[tactic(auto, using(std::proofs::lemmas::Nat::and_le_r))]
fn hashed_slot(hash: u64, slots: usize) -> usize
    requires { 0 < slots }
    ensures slot { result ≡ hashed_slot slots hash }
    ensures within { result < slots }
{
    hash as usize & (slots - 1)
}

impl Slots {
    /// Slots by the last bits of hashes for so many keys: at least as many.
    pub(crate) fn hashed(keys: usize) -> Slots
        requires { keys ≤ u32.MAX }
        ensures { 0 < slot_count result }
    {
        Slots::Hashed(keys.max(1).next_power_of_two())
    }

    /// Slots by these hashes of keys in their order.
    pub(crate) fn ranked(alloc: Global, hashes: &[u64]) -> Result<Slots, AllocError>
        ensures { IfOk result (λ slots. 0 < slot_count slots) }
    {
        Ok(Slots::Ranked(sorted_hashes(alloc, hashes)?))
    }

    /// How many slots there are.
    pub(crate) fn count(&self) -> usize
        ensures { result ≡ slot_count self.now }
    {
        match self {
            Slots::Hashed(slots) => *slots,
            Slots::Ranked(hashes) => hashes.len() + 1,
        }
    }

    /// The slot of a key.
    pub(crate) fn of(&self, key: &Key) -> usize
        requires { 0 < slot_count self.now }
        ensures slot { result ≡ slot_of self.now key.now }
        ensures within { result < slot_count self.now }
    {
        self.by(hash_of(key))
    }

    /// The slot of a key that has a hash.
    #[tactic(auto, unfolding(crate::specs::Slots::slot_by))]
    pub(crate) fn by(&self, hash: u64) -> usize
        requires { 0 < slot_count self.now }
        ensures slot { result ≡ slot_by self.now hash }
        ensures within { result < slot_count self.now }
    {
        match self {
            Slots::Hashed(slots) => hashed_slot(hash, *slots),
            Slots::Ranked(hashes) => rank(hashes.as_slice(), hash),
        }
    }
}
