ghost use Rattle.std.specs.Prelude.{◌≡◌, ◌↔◌, true, List, ℕ, [], ◌∷◌, IsTrue, codes, bytes_eq};
ghost use Rattle.std.specs.Cmp.Rules.{comparing, hashing};
ghost use Rattle.std.specs.Cmp.Lexicographic.{slice_cmp};
ghost use Rattle.std.specs.Ordering.{is_lt, nat_cmp};
ghost use Rattle.std.proofs.Common.{rules};
ghost use Rattle.fare_codes.specs.Codes.{is_city, read_city};

use crate::texts::{all_uppercase, ascii_text};
use arrayvec::ArrayString;
use std::hash::{Hash, Hasher};
use std::marker::Model;

/// A city: three letters A to Z.
#[derive(Clone, Copy, Debug, PartialEq, Eq, PartialOrd, Ord)]
pub struct City {
    letters: [u8; 3],
}

impl Model for City {
    ghost Value = { List ℕ };

    ghost view = { λ c. c.letters };

    ghost invariant = { λ c. is_city c.letters ≡ true };

    ghost inverse = { λ bytes. record { letters = bytes } };
}

impl City {
    /// The city that these bytes spell; nothing exactly where they are not its form.
    pub fn read(bytes: &[u8]) -> Option<City>
        ensures { result ≡ read_city bytes.now }
    {
        if bytes.len() != 3 || !all_uppercase(bytes) {
            return None;
        }
        Some(City {
            letters: [bytes[0], bytes[1], bytes[2]],
        })
    }

    /// Its letters; read back they are the city.
    #[tactic(auto, using(crate::proofs::TextLemmas::uppercase_is_ascii))]
    pub fn text(self) -> ArrayString<16>
        ensures text { result.bytes ≡ self }
        ensures form { is_city self ≡ true }
        ensures read_back { read_city self ≡ Some self }
    {
        ascii_text(&self.letters)
    }

    /// Whether both are the same city.
    #[tactic(auto, using(crate::proofs::SameLemmas::same_text))]
    pub fn is(self, other: City) -> bool
        ensures same { IsTrue result ↔ (self ≡ other) }
        ensures test { result ≡ bytes_eq self other }
    {
        self.letters == other.letters
    }

    /// Whether it stands before another in the order of their letters. Each filed pair of cities asks it, so the letters
    /// are compared one by one, and not as any two slices are.
    #[tactic(auto, using(crate::proofs::LetterLemmas::by_letters))]
    pub fn is_before(self, other: City) -> bool
        ensures { result ≡ is_lt (slice_cmp nat_cmp self other) }
    {
        let [first, second, third] = self.letters;
        let [fourth, fifth, sixth] = other.letters;
        if first != fourth {
            first < fourth
        } else if second != fifth {
            second < fifth
        } else {
            third < sixth
        }
    }
}

/// Its letters are hashed as one write, since an edition's index hashes a city for each record.
impl Hash for City {
    ghost hash_input = { λ letters. letters ∷ [] };

    ghost respects_eq = { Prim.search (hashing, rules) };

    fn hash<H: Hasher>(&self, state: &mut H) {
        state.write(&self.letters);
    }
}

/// `AAA`, which stands in room that is not yet used.
impl Default for City {
    ghost is_default = { λ c. c ≡ codes "AAA" };

    fn default() -> City {
        City { letters: *b"AAA" }
    }
}
