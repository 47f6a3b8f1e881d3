ghost use Rattle.std.specs.Prelude.{◌≡◌, ◌↔◌, IsTrue};
ghost use Rattle.fare_codes.specs.Words.{area_text, read_area};

use crate::texts::ascii_text;
use arrayvec::ArrayString;

/// An area of the world: 1 the Americas, 2 Europe, Africa and the Middle East, 3 Asia and the Pacific.
#[derive(Clone, Copy, Debug, PartialEq, Eq, PartialOrd, Ord, Hash)]
pub enum Area {
    /// Area 1.
    One,
    /// Area 2.
    Two,
    /// Area 3.
    Three,
}

impl Area {
    /// The area that these bytes spell; nothing exactly where they are not its text.
    #[tactic(auto, unfolding(crate::specs::Words::read_area))]
    pub fn read(bytes: &[u8]) -> Option<Area>
        ensures { result ≡ read_area bytes.now }
    {
        match bytes {
            b"1" => Some(Area::One),
            b"2" => Some(Area::Two),
            b"3" => Some(Area::Three),
            _ => None,
        }
    }

    /// Its number. Read back it is the area.
    #[tactic(auto, unfolding(crate::specs::Words::read_area))]
    pub fn text(self) -> ArrayString<16>
        ensures text { result.bytes ≡ area_text self }
        ensures read_back { read_area (area_text self) ≡ Some self }
    {
        match self {
            Area::One => ascii_text(b"1"),
            Area::Two => ascii_text(b"2"),
            Area::Three => ascii_text(b"3"),
        }
    }

    /// Whether both are the same area.
    pub fn is(self, other: Area) -> bool
        ensures { IsTrue result ↔ (self ≡ other) }
    {
        self == other
    }
}
