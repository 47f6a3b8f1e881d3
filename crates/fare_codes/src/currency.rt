ghost use Rattle.std.specs.Prelude.{◌≡◌, ◌↔◌, true, List, ℕ, IsTrue, bytes_eq};
ghost use Rattle.fare_codes.specs.Codes.{is_currency, read_currency};

use crate::texts::{all_uppercase, ascii_text};
use arrayvec::ArrayString;
use std::marker::Model;

/// A currency: three letters A to Z.
#[derive(Clone, Copy, Debug, PartialEq, Eq, PartialOrd, Ord, Hash)]
pub struct Currency {
    letters: [u8; 3],
}

impl Model for Currency {
    ghost Value = { List ℕ };

    ghost view = { λ c. c.letters };

    ghost invariant = { λ c. is_currency c.letters ≡ true };

    ghost inverse = { λ bytes. record { letters = bytes } };
}

impl Currency {
    /// The currency that these bytes spell; nothing exactly where they are not its form.
    pub fn read(bytes: &[u8]) -> Option<Currency>
        ensures { result ≡ read_currency bytes.now }
    {
        if bytes.len() != 3 || !all_uppercase(bytes) {
            return None;
        }
        Some(Currency {
            letters: [bytes[0], bytes[1], bytes[2]],
        })
    }

    /// Its letters; read back they are the currency.
    #[tactic(auto, using(crate::proofs::TextLemmas::uppercase_is_ascii))]
    pub fn text(self) -> ArrayString<16>
        ensures text { result.bytes ≡ self }
        ensures form { is_currency self ≡ true }
        ensures read_back { read_currency self ≡ Some self }
    {
        ascii_text(&self.letters)
    }

    /// Whether both are the same currency.
    #[tactic(auto, using(crate::proofs::SameLemmas::same_text))]
    pub fn is(self, other: Currency) -> bool
        ensures same { IsTrue result ↔ (self ≡ other) }
        ensures test { result ≡ bytes_eq self other }
    {
        self.letters == other.letters
    }
}
