ghost use Rattle.std.specs.Prelude.{◌≡◌, ◌↔◌, IsTrue};
ghost use Rattle.fare_codes.specs.Over.{over_text, read_over};

use crate::texts::ascii_text;
use arrayvec::ArrayString;

/// The ocean that a sector between areas 1 and 3 is marked to cross.
#[derive(Clone, Copy, Debug, PartialEq, Eq, PartialOrd, Ord, Hash)]
pub enum Over {
    /// No mark: the Pacific.
    Unmarked,
    /// The Atlantic.
    AT,
    /// The Pacific.
    PA,
}

impl Over {
    /// The mark that these bytes spell; nothing exactly where they are not its text.
    #[tactic(auto, unfolding(crate::specs::Over::read_over))]
    pub fn read(bytes: &[u8]) -> Option<Over>
        ensures { result ≡ read_over bytes.now }
    {
        match bytes {
            b"" => Some(Over::Unmarked),
            b"AT" => Some(Over::AT),
            b"PA" => Some(Over::PA),
            _ => None,
        }
    }

    /// Its two letters; the empty text where there is no mark. Read back it is the mark.
    #[tactic(auto, unfolding(crate::specs::Over::read_over))]
    pub fn text(self) -> ArrayString<16>
        ensures text { result.bytes ≡ over_text self }
        ensures read_back { read_over (over_text self) ≡ Some self }
    {
        match self {
            Over::Unmarked => ascii_text(b""),
            Over::AT => ascii_text(b"AT"),
            Over::PA => ascii_text(b"PA"),
        }
    }

    /// Whether both are the same mark.
    pub fn is(self, other: Over) -> bool
        ensures { IsTrue result ↔ (self ≡ other) }
    {
        self == other
    }
}
