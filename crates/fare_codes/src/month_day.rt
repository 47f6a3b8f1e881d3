ghost use Rattle.std.specs.Prelude.{◌≡◌, ◌↔◌, ◌<◌, ◌≤◌, true, IsTrue, length, bytes_eq};
ghost use Rattle.fare_codes.specs.Day.{is_month_day, read_month_day, has_month_day_shape, place_in_year};
ghost use Rattle.fare_codes.specs.Day.{month_day_text};

use crate::calendar::{day_number_of, has_two_digits, two_digits_at};
use crate::texts::ascii_text;
use arrayvec::ArrayString;
use std::marker::Model;

/// A day of the year, without its year. It is small, since each fare of an edition has two of them. A contract sees its
/// text, `MM-DD`.
#[derive(Clone, Copy, Debug, PartialEq, Eq, PartialOrd, Ord, Hash)]
pub struct MonthDay {
    month: u8,
    day: u8,
}

impl Model for MonthDay {
    ghost use Rattle.std.specs.Prelude.{◌≡◌, true, List, ℕ};
    ghost use Rattle.std.proofs.Common.{arith};
    ghost use Rattle.fare_codes.specs.Day.{is_month_day, month_day_text, two_digits};

    ghost Value = { List ℕ };

    ghost view = { λ d. month_day_text d.month d.day };

    ghost invariant = { λ d. is_month_day (month_day_text d.month d.day) ≡ true };

    ghost inverse = { λ text. record { month = two_digits text 0; day = two_digits text 3 } };

    ghost inverse_ok = { λ d h i.
        let month : two_digits (month_day_text d.month d.day) 0 ≡ d.month = omega arith in
        let day : two_digits (month_day_text d.month d.day) 3 ≡ d.day = omega arith in
        record { month = month i; day = day i } };
}

impl MonthDay {
    /// The day of the year that these bytes spell; nothing exactly where they are not `MM-DD` with a day that the year
    /// 2000 has.
    #[tactic(auto, using(crate::proofs::MonthDayLemmas::digits_of_month_day))]
    pub fn read(bytes: &[u8]) -> Option<MonthDay>
        ensures { result ≡ read_month_day bytes.now }
    {
        if !is_shaped(bytes) {
            return None;
        }
        day_number_of(2000, two_digits_at(bytes, 0), two_digits_at(bytes, 3))?;
        Some(MonthDay::from_bytes(bytes))
    }

    /// The day of the year whose text this is.
    #[tactic(auto, using(crate::proofs::MonthDayLemmas::digits_of_month_day, crate::proofs::MonthDayLemmas::text_of_digits))]
    pub(crate) fn from_bytes(bytes: &[u8]) -> MonthDay
        requires form { is_month_day bytes.now ≡ true }
        requires fits { length bytes.now ≡ 5 }
        ensures { result ≡ bytes.now }
    {
        MonthDay {
            month: two_digits_at(bytes, 0),
            day: two_digits_at(bytes, 3),
        }
    }

    /// `MM-DD`; read back it is the day of the year.
    #[tactic(auto, using(crate::proofs::MonthDayLemmas::month_day_is_ascii))]
    pub fn text(self) -> ArrayString<16>
        ensures text { result.bytes ≡ self }
        ensures form { is_month_day self ≡ true }
        ensures read_back { read_month_day self ≡ Some self }
    {
        ascii_text(&month_day_bytes(self.month, self.day))
    }

    /// Its place among the days of the year: 100 times the month, and the day.
    #[tactic(auto, using(crate::proofs::MonthDayLemmas::place_of_text, crate::proofs::MonthDayLemmas::place_in_bounds))]
    pub fn place(self) -> u32
        ensures value { result ≡ place_in_year self }
        ensures first { 101 ≤ result }
        ensures last { result ≤ 1231 }
    {
        100 * self.month as u32 + self.day as u32
    }

    /// Whether both are the same day of the year.
    #[tactic(auto, using(crate::proofs::SameLemmas::same_text))]
    pub fn is(self, other: MonthDay) -> bool
        ensures same { IsTrue result ↔ (self ≡ other) }
        ensures test { result ≡ bytes_eq self other }
    {
        self == other
    }
}

/// The text of a month and a day of it.
fn month_day_bytes(month: u8, day: u8) -> [u8; 5]
    requires month { month < 100 }
    requires day { day < 100 }
    ensures { result ≡ month_day_text month day }
{
    [
        b'0' + month / 10,
        b'0' + month % 10,
        b'-',
        b'0' + day / 10,
        b'0' + day % 10,
    ]
}

/// Whether the bytes are digits and a hyphen at the places of `MM-DD`.
#[tactic(auto, unfolding(crate::specs::Day::has_month_day_shape))]
fn is_shaped(bytes: &[u8]) -> bool
    ensures { result ≡ has_month_day_shape bytes.now }
{
    bytes.len() == 5 && has_two_digits(bytes, 0) && bytes[2] == b'-' && has_two_digits(bytes, 3)
}
