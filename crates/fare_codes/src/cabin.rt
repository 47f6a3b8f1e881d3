ghost use Rattle.std.specs.Prelude.{◌≡◌, ◌↔◌, IsTrue};
ghost use Rattle.fare_codes.specs.Same.{same_cabin};
ghost use Rattle.fare_codes.specs.Words.{cabin_text, read_cabin};

use crate::texts::ascii_text;
use arrayvec::ArrayString;

/// A cabin of a sector, and the class of a fare.
#[derive(Clone, Copy, Debug, PartialEq, Eq, PartialOrd, Ord, Hash)]
pub enum Cabin {
    /// First.
    F,
    /// Business.
    C,
    /// Economy.
    Y,
}

impl Cabin {
    /// The cabin that these bytes spell; nothing exactly where they are not its text.
    #[tactic(auto, unfolding(crate::specs::Words::read_cabin))]
    pub fn read(bytes: &[u8]) -> Option<Cabin>
        ensures { result ≡ read_cabin bytes.now }
    {
        match bytes {
            b"F" => Some(Cabin::F),
            b"C" => Some(Cabin::C),
            b"Y" => Some(Cabin::Y),
            _ => None,
        }
    }

    /// Its letter. Read back it is the cabin.
    #[tactic(auto, unfolding(crate::specs::Words::read_cabin))]
    pub fn text(self) -> ArrayString<16>
        ensures text { result.bytes ≡ cabin_text self }
        ensures read_back { read_cabin (cabin_text self) ≡ Some self }
    {
        match self {
            Cabin::F => ascii_text(b"F"),
            Cabin::C => ascii_text(b"C"),
            Cabin::Y => ascii_text(b"Y"),
        }
    }

    /// Whether both are the same cabin.
    #[tactic(auto, using(crate::proofs::SameLemmas::cabin_test))]
    pub fn is(self, other: Cabin) -> bool
        ensures same { IsTrue result ↔ (self ≡ other) }
        ensures test { result ≡ same_cabin self other }
    {
        self == other
    }
}
