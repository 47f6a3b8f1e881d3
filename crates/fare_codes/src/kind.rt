ghost use Rattle.std.specs.Prelude.{◌≡◌, ◌↔◌, IsTrue};
ghost use Rattle.fare_codes.specs.Same.{same_kind};
ghost use Rattle.fare_codes.specs.Words.{kind_text, read_kind};

use crate::texts::ascii_text;
use arrayvec::ArrayString;

/// The kind of a fare.
#[derive(Clone, Copy, Debug, PartialEq, Eq, PartialOrd, Ord, Hash)]
pub enum Kind {
    /// One way.
    OW,
    /// Half round trip.
    HR,
}

impl Kind {
    /// The kind of fare that these bytes spell; nothing exactly where they are not its text.
    #[tactic(auto, unfolding(crate::specs::Words::read_kind))]
    pub fn read(bytes: &[u8]) -> Option<Kind>
        ensures { result ≡ read_kind bytes.now }
    {
        match bytes {
            b"OW" => Some(Kind::OW),
            b"HR" => Some(Kind::HR),
            _ => None,
        }
    }

    /// Its two letters. Read back it is the kind of fare.
    #[tactic(auto, unfolding(crate::specs::Words::read_kind))]
    pub fn text(self) -> ArrayString<16>
        ensures text { result.bytes ≡ kind_text self }
        ensures read_back { read_kind (kind_text self) ≡ Some self }
    {
        match self {
            Kind::OW => ascii_text(b"OW"),
            Kind::HR => ascii_text(b"HR"),
        }
    }

    /// Whether both are the same kind of fare.
    #[tactic(auto, using(crate::proofs::SameLemmas::kind_test))]
    pub fn is(self, other: Kind) -> bool
        ensures same { IsTrue result ↔ (self ≡ other) }
        ensures test { result ≡ same_kind self other }
    {
        self == other
    }
}
