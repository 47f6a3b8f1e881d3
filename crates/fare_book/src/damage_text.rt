//! The words that tell a damage.

ghost use Rattle.std.specs.Prelude.{◌≡◌, ◌++◌, codes, decimal};
ghost use Rattle.fare_book.specs.DamageText.{damage_text};

use crate::damage::Damage;
use arrayvec::ArrayString;
use fare_text::{push_short_number, short_text};

impl Damage {
    /// What a report of the damage has behind the place, without LF: the tariff fault without its first word,
    /// `Repeat` and the earlier place, or `TooMany`.
    pub fn text(&self) -> ArrayString<64>
        ensures { result.bytes ≡ damage_text self.now }
    {
        match self {
            Damage::Text(fault) => fault.words(),
            Damage::Repeat(place) => text_of_repeat(*place),
            Damage::TooMany => short_text("TooMany"),
        }
    }
}

/// The earlier place of a number.
fn text_of_repeat(place: u32) -> ArrayString<64>
    ensures { result.bytes ≡ codes "Repeat " ++ decimal place }
{
    let mut text = short_text("Repeat ");
    push_short_number(&mut text, place);
    text
}
