ghost use Rattle.std.specs.Prelude.{◌≡◌, ◌↔◌, true, List, ℕ, IsTrue, codes, bytes_eq};
ghost use Rattle.fare_codes.specs.Codes.{is_carrier, read_carrier};

use crate::texts::{all_code_characters, ascii_text};
use arrayvec::ArrayString;
use std::marker::Model;

/// A carrier: two characters, each a letter A to Z or a digit.
#[derive(Clone, Copy, Debug, PartialEq, Eq, PartialOrd, Ord, Hash)]
pub struct Carrier {
    letters: [u8; 2],
}

impl Model for Carrier {
    ghost Value = { List ℕ };

    ghost view = { λ c. c.letters };

    ghost invariant = { λ c. is_carrier c.letters ≡ true };

    ghost inverse = { λ bytes. record { letters = bytes } };
}

impl Carrier {
    /// The carrier that these bytes spell; nothing exactly where they are not its form.
    pub fn read(bytes: &[u8]) -> Option<Carrier>
        ensures { result ≡ read_carrier bytes.now }
    {
        if bytes.len() != 2 || !all_code_characters(bytes) {
            return None;
        }
        Some(Carrier {
            letters: [bytes[0], bytes[1]],
        })
    }

    /// Its letters; read back they are the carrier.
    #[tactic(auto, using(crate::proofs::TextLemmas::code_characters_are_ascii))]
    pub fn text(self) -> ArrayString<16>
        ensures text { result.bytes ≡ self }
        ensures form { is_carrier self ≡ true }
        ensures read_back { read_carrier self ≡ Some self }
    {
        ascii_text(&self.letters)
    }

    /// Whether both are the same carrier.
    #[tactic(auto, using(crate::proofs::SameLemmas::same_text))]
    pub fn is(self, other: Carrier) -> bool
        ensures same { IsTrue result ↔ (self ≡ other) }
        ensures test { result ≡ bytes_eq self other }
    {
        self.letters == other.letters
    }
}

/// `AA`, which stands in room that is not yet used.
impl Default for Carrier {
    ghost is_default = { λ c. c ≡ codes "AA" };

    fn default() -> Carrier {
        Carrier { letters: *b"AA" }
    }
}
