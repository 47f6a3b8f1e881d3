//! The texts of faults.

ghost use Rattle.std.specs.Prelude.{◌≡◌, ◌≤◌, ◌++◌, length, codes, decimal};
ghost use Rattle.fare_trip.specs.FaultText.{member_name, fault_text};

use crate::fault::{Member, TripFault};
use arrayvec::ArrayString;
use fare_text::{push_short_number, short_text};

impl Member {
    /// The member's name, in small letters.
    pub fn name(self) -> &'static str
        ensures name { result.now ≡ member_name self }
        ensures short { length result.now ≤ 7 }
    {
        match self {
            Member::Trip => "trip",
            Member::Sale => "sale",
            Member::From => "from",
            Member::Sectors => "sectors",
            Member::Sector => "sector",
            Member::To => "to",
            Member::Carrier => "carrier",
            Member::Day => "day",
            Member::Cabin => "cabin",
            Member::Over => "over",
            Member::Stop => "stop",
            Member::Surface => "surface",
        }
    }
}

impl TripFault {
    /// Its text without the LF that ends the line: `TRIP`, its name, its member and its number; empty for want of
    /// memory.
    pub fn text(&self) -> ArrayString<64>
        ensures { result.bytes ≡ fault_text self.now }
    {
        match *self {
            TripFault::Memory => ArrayString::new(),
            TripFault::NotJson => short_text("TRIP NotJson"),
            TripFault::Missing(member, number) => of_member("TRIP Missing ", member, number),
            TripFault::Bad(member, number) => of_member("TRIP Bad ", member, number),
            TripFault::NoSectors => short_text("TRIP NoSectors"),
            TripFault::TooMany(number) => numbered("TRIP TooMany ", number),
            TripFault::SameCity(number) => numbered("TRIP SameCity ", number),
            TripFault::DatesFall(number) => numbered("TRIP DatesFall ", number),
            TripFault::SurfacePlace(number) => numbered("TRIP SurfacePlace ", number),
        }
    }
}

/// Words and a number behind them.
fn numbered(words: &str, number: u32) -> ArrayString<64>
    requires { length words.now ≤ 32 }
    ensures { result.bytes ≡ words.now ++ decimal number }
{
    let mut text = short_text(words);
    push_short_number(&mut text, number);
    text
}

/// Words, a member's name, a space and a number.
fn of_member(words: &str, member: Member, number: u32) -> ArrayString<64>
    requires { length words.now ≤ 16 }
    ensures { result.bytes ≡ words.now ++ member_name member ++ codes " " ++ decimal number }
{
    let mut text = short_text(words);
    text.push_str(member.name());
    text.push_str(" ");
    push_short_number(&mut text, number);
    text
}
