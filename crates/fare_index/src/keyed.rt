ghost use Rattle.std.specs.Prelude.{◌≡◌, Bool, true};
ghost use Rattle.fare_index.specs.declared.key.Key.{Key};
ghost use Rattle.fare_index.specs.Key.{same_key};

use crate::key::Key;
use std::marker::Sync;

/// What an index finds by its key.
pub trait Keyed: Sync {
    /// Its key.
    ghost key_of: { Self → Key };

    /// What holds of it by its type.
    ghost holds_of: { Self → Bool };

    /// The key by which it is found, and what holds of it by its type.
    fn key(&self) -> Key
        ensures key { result ≡ key_of self.now }
        ensures by_type { holds_of self.now ≡ true };

    /// Whether it is found by a key.
    fn has(&self, key: &Key) -> bool
        ensures { result ≡ same_key key.now (key_of self.now) };
}
