ghost use Rattle.std.specs.Prelude.{◌≡◌, ◌↔◌, IsTrue};
ghost use Rattle.fare_codes.specs.Words.{mode_text, read_mode};

use crate::texts::ascii_text;
use arrayvec::ArrayString;

/// How a local amount is rounded to its unit.
#[derive(Clone, Copy, Debug, PartialEq, Eq, PartialOrd, Ord, Hash)]
pub enum Mode {
    /// Up to the next multiple.
    Up,
    /// To the nearest multiple, halves up.
    Nearest,
}

impl Mode {
    /// The mode that these bytes spell; nothing exactly where they are not its text.
    #[tactic(auto, unfolding(crate::specs::Words::read_mode))]
    pub fn read(bytes: &[u8]) -> Option<Mode>
        ensures { result ≡ read_mode bytes.now }
    {
        match bytes {
            b"U" => Some(Mode::Up),
            b"N" => Some(Mode::Nearest),
            _ => None,
        }
    }

    /// Its letter. Read back it is the mode.
    #[tactic(auto, unfolding(crate::specs::Words::read_mode))]
    pub fn text(self) -> ArrayString<16>
        ensures text { result.bytes ≡ mode_text self }
        ensures read_back { read_mode (mode_text self) ≡ Some self }
    {
        match self {
            Mode::Up => ascii_text(b"U"),
            Mode::Nearest => ascii_text(b"N"),
        }
    }

    /// Whether both are the same mode.
    pub fn is(self, other: Mode) -> bool
        ensures { IsTrue result ↔ (self ≡ other) }
    {
        self == other
    }
}
