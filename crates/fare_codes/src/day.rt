ghost use Rattle.std.specs.Prelude.{◌≡◌, ◌↔◌, ◌<◌, ◌≤◌, true, IsTrue, codes, IfSome, length, pos, if◌then◌else◌};
ghost use Rattle.std.specs.Prelude.{bytes_eq};
ghost use Rattle.fare_codes.specs.Day.{is_day, read_day, day_number, calendar_number, has_day_shape, year_of};
ghost use Rattle.fare_codes.specs.Day.{is_civil, month_day_of};

use crate::calendar::{day_number_of, has_two_digits, two_digits_at};
use crate::month_day::MonthDay;
use crate::texts::ascii_text;
use arrayvec::ArrayString;
use std::marker::Model;

/// A civil day from 1970-01-01 to 9999-12-31. A contract sees its text, `YYYY-MM-DD`.
#[derive(Clone, Copy, Debug, PartialEq, Eq, PartialOrd, Ord, Hash)]
pub struct Day {
    text: [u8; 10],
    number: u32,
}

impl Model for Day {
    ghost use Rattle.std.specs.Prelude.{◌≡◌, ◌≤◌, true, List, ℕ};
    ghost use Rattle.std.proofs.Common.{sym};
    ghost use Rattle.fare_codes.specs.Day.{is_day, day_number};

    ghost Value = { List ℕ };

    ghost view = { λ d. d.text };

    ghost invariant = { λ d. (is_day d.text ≡ true) × (d.number ≡ day_number d.text) × (d.number ≤ 2_932_896) };

    ghost inverse = { λ text. record { text = text; number = day_number text } };

    ghost inverse_ok = { λ d h i. record {
      text = d.text;
      number = (sym h.1) i;
    } };
}

impl Day {
    /// The day that these bytes spell; nothing exactly where they are not `YYYY-MM-DD` with a civil date from 1970 to
    /// 9999.
    #[tactic(auto, using(crate::proofs::DayTextLemmas::digits_of_shape))]
    pub fn read(bytes: &[u8]) -> Option<Day>
        ensures { result ≡ read_day bytes.now }
    {
        if !is_shaped(bytes) {
            return None;
        }
        let number = number_at(bytes)?;
        Some(Day {
            text: ten_bytes(bytes),
            number,
        })
    }

    /// `YYYY-MM-DD`; read back it is the day.
    #[tactic(auto, using(crate::proofs::DayTextLemmas::day_is_ascii))]
    pub fn text(self) -> ArrayString<16>
        ensures text { result.bytes ≡ self }
        ensures form { is_day self ≡ true }
        ensures read_back { read_day self ≡ Some self }
    {
        ascii_text(&self.text)
    }

    /// The days since 1970-01-01, at most 2,932,896, which is 9999-12-31.
    #[tactic(auto, using(crate::proofs::DayTextLemmas::number_of_calendar))]
    pub fn number(self) -> u32
        ensures value { result ≡ day_number self }
        ensures calendar { pos result ≡ calendar_number self }
        ensures bound { result ≤ 2_932_896 }
    {
        self.number
    }

    /// The day of the year, which is the text without the year.
    #[tactic(auto, using(crate::proofs::MonthDayLemmas::month_day_of_day))]
    pub fn month_day(self) -> MonthDay
        ensures { result ≡ month_day_of self }
    {
        MonthDay::from_bytes(&self.text[5..])
    }

    /// Whether both are the same day.
    #[tactic(auto, using(crate::proofs::SameLemmas::same_text))]
    pub fn is(self, other: Day) -> bool
        ensures same { IsTrue result ↔ (self ≡ other) }
        ensures test { result ≡ bytes_eq self other }
    {
        self == other
    }
}

/// 1970-01-01, which stands in room that is not yet used.
impl Default for Day {
    ghost is_default = { λ c. c ≡ codes "1970-01-01" };

    #[tactic(auto, unfolding(crate::specs::Day::has_day_shape, crate::specs::Day::is_civil, crate::specs::Day::day_number, crate::specs::Day::days_since_1970, jiff_core::specs::Calendar::days_of_months))]
    fn default() -> Day {
        Day {
            text: *b"1970-01-01",
            number: 0,
        }
    }
}

/// Whether the bytes are digits and hyphens at the places of `YYYY-MM-DD`.
#[tactic(auto, unfolding(crate::specs::Day::has_day_shape))]
fn is_shaped(bytes: &[u8]) -> bool
    ensures { result ≡ has_day_shape bytes.now }
{
    bytes.len() == 10
        && has_two_digits(bytes, 0)
        && has_two_digits(bytes, 2)
        && bytes[4] == b'-'
        && has_two_digits(bytes, 5)
        && bytes[7] == b'-'
        && has_two_digits(bytes, 8)
}

/// The year of a day's text.
#[tactic(auto, using(crate::proofs::DayTextLemmas::digits_of_shape))]
fn year_at(bytes: &[u8]) -> u16
    requires { has_day_shape bytes.now ≡ true }
    ensures value { result ≡ year_of bytes.now }
    ensures short { result < 10000 }
{
    100 * two_digits_at(bytes, 0) as u16 + two_digits_at(bytes, 2) as u16
}

/// The number of the day whose text this is; nothing exactly where its digits are no civil date from 1970 to 9999.
#[tactic(auto, using(crate::proofs::DayTextLemmas::digits_of_shape), unfolding(crate::specs::Day::is_civil, crate::specs::Day::day_number))]
fn number_at(bytes: &[u8]) -> Option<u32>
    requires { has_day_shape bytes.now ≡ true }
    ensures value { result ≡ (if is_civil bytes.now then Some (day_number bytes.now) else None) }
    ensures bound { IfSome result (λ number. number ≤ 2_932_896) }
{
    let year = year_at(bytes);
    if year < 1970 {
        return None;
    }
    day_number_of(year, two_digits_at(bytes, 5), two_digits_at(bytes, 8))
}

/// Ten bytes as an array.
fn ten_bytes(bytes: &[u8]) -> [u8; 10]
    requires { length bytes.now ≡ 10 }
    ensures { result ≡ bytes.now }
{
    let mut text = [0; 10];
    text.copy_from_slice(bytes);
    text
}
