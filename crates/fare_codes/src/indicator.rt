ghost use Rattle.std.specs.Prelude.{◌≡◌, ◌↔◌, IsTrue};
ghost use Rattle.fare_codes.specs.Same.{same_indicator};
ghost use Rattle.fare_codes.specs.Words.{indicator_text, read_indicator};

use crate::texts::ascii_text;
use arrayvec::ArrayString;

/// A global indicator: the way round the world that a fare is filed for.
#[derive(Clone, Copy, Debug, PartialEq, Eq, PartialOrd, Ord, Hash)]
pub enum Indicator {
    /// Within the western hemisphere.
    WH,
    /// Within the eastern hemisphere.
    EH,
    /// Via the Atlantic.
    AT,
    /// Via the Pacific.
    PA,
    /// Via the Atlantic and the Pacific.
    AP,
}

impl Indicator {
    /// The indicator that these bytes spell; nothing exactly where they are not its text.
    #[tactic(auto, unfolding(crate::specs::Words::read_indicator))]
    pub fn read(bytes: &[u8]) -> Option<Indicator>
        ensures { result ≡ read_indicator bytes.now }
    {
        match bytes {
            b"WH" => Some(Indicator::WH),
            b"EH" => Some(Indicator::EH),
            b"AT" => Some(Indicator::AT),
            b"PA" => Some(Indicator::PA),
            b"AP" => Some(Indicator::AP),
            _ => None,
        }
    }

    /// Its two letters. Read back it is the indicator.
    #[tactic(auto, unfolding(crate::specs::Words::read_indicator))]
    pub fn text(self) -> ArrayString<16>
        ensures text { result.bytes ≡ indicator_text self }
        ensures read_back { read_indicator (indicator_text self) ≡ Some self }
    {
        match self {
            Indicator::WH => ascii_text(b"WH"),
            Indicator::EH => ascii_text(b"EH"),
            Indicator::AT => ascii_text(b"AT"),
            Indicator::PA => ascii_text(b"PA"),
            Indicator::AP => ascii_text(b"AP"),
        }
    }

    /// Whether both are the same indicator.
    #[tactic(auto, using(crate::proofs::SameLemmas::indicator_test))]
    pub fn is(self, other: Indicator) -> bool
        ensures same { IsTrue result ↔ (self ≡ other) }
        ensures test { result ≡ same_indicator self other }
    {
        self == other
    }
}
