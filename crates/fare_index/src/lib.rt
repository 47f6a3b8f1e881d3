//! What is found by its key: the first place of a key in a list of items, and after each place the next of its key. An
//! index owns its items and is seen as their list; each look-up answers as if it searched that list. No key is kept: that
//! of an item is made when it is hashed and when it is compared.
//!
//! - `key`: the key of a filed record, in which a pair of cities is unordered where the record's is;
//! - `keyed`: what is found by its key;
//! - `pairs`: the keys of unordered pairs;
//! - `mark`: a number for each kind of key and indicator;
//! - `hashed`: the hash of a key, and the hashes of many, made on all processors;
//! - `rank`: hashes in their order, and the place of one among them;
//! - `slots`: the slot of a key, by the last bits of its hash, or by the place of its hash where too many would share one;
//! - `link`: a place, or nothing, in four bytes;
//! - `crowd`: how many places have one slot;
//! - `places`: the places of the keys of a slot, linked in one pass over their hashes from the back;
//! - `index`: items with the places of their keys;
//! - `groups`: their keys in groups, in which equal keys are together.
#![tactic(auto)]

mod crowd;
mod groups;
mod hashed;
mod index;
mod key;
mod keyed;
mod link;
mod mark;
mod pairs;
mod places;
mod rank;
mod slots;

pub use groups::Groups;
pub use hashed::{FEWEST_APART, threads_for};
pub use index::Index;
pub use key::Key;
pub use keyed::Keyed;

#[cfg(test)]
mod tests;
