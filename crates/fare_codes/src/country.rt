ghost use Rattle.std.specs.Prelude.{◌≡◌, ◌↔◌, true, List, ℕ, IsTrue, bytes_eq};
ghost use Rattle.fare_codes.specs.Codes.{is_country, read_country};

use crate::texts::{all_uppercase, ascii_text};
use arrayvec::ArrayString;
use std::marker::Model;

/// A country: two letters A to Z.
#[derive(Clone, Copy, Debug, PartialEq, Eq, PartialOrd, Ord, Hash)]
pub struct Country {
    letters: [u8; 2],
}

impl Model for Country {
    ghost Value = { List ℕ };

    ghost view = { λ c. c.letters };

    ghost invariant = { λ c. is_country c.letters ≡ true };

    ghost inverse = { λ bytes. record { letters = bytes } };
}

impl Country {
    /// The country that these bytes spell; nothing exactly where they are not its form.
    pub fn read(bytes: &[u8]) -> Option<Country>
        ensures { result ≡ read_country bytes.now }
    {
        if bytes.len() != 2 || !all_uppercase(bytes) {
            return None;
        }
        Some(Country {
            letters: [bytes[0], bytes[1]],
        })
    }

    /// Its letters; read back they are the country.
    #[tactic(auto, using(crate::proofs::TextLemmas::uppercase_is_ascii))]
    pub fn text(self) -> ArrayString<16>
        ensures text { result.bytes ≡ self }
        ensures form { is_country self ≡ true }
        ensures read_back { read_country self ≡ Some self }
    {
        ascii_text(&self.letters)
    }

    /// Whether both are the same country.
    #[tactic(auto, using(crate::proofs::SameLemmas::same_text))]
    pub fn is(self, other: Country) -> bool
        ensures same { IsTrue result ↔ (self ≡ other) }
        ensures test { result ≡ bytes_eq self other }
    {
        self.letters == other.letters
    }
}
