//! The digits of days' texts, and the calendar that they are looked up in.

ghost use Rattle.std.specs.Prelude.{◌≡◌, ◌+◌, ◌<◌, ◌≤◌, true, length, IfSome, if◌then◌else◌};
ghost use Rattle.fare_codes.specs.Day.{are_two_digits, two_digits, is_in_calendar, days_since_1970};

use jiff_core::civil::Date;

/// Whether two digits stand from a place on.
pub(crate) fn has_two_digits(text: &[u8], place: usize) -> bool
    requires { place + 1 < length text.now }
    ensures { result ≡ are_two_digits text.now place }
{
    text[place].is_ascii_digit() && text[place + 1].is_ascii_digit()
}

/// The number of the two digits from a place on.
pub(crate) fn two_digits_at(text: &[u8], place: usize) -> u8
    requires fits { place + 1 < length text.now }
    requires digits { are_two_digits text.now place ≡ true }
    ensures value { result ≡ two_digits text.now place }
    ensures short { result < 100 }
{
    10 * (text[place] - b'0') + (text[place + 1] - b'0')
}

/// The days from 1970-01-01 to a date; nothing exactly where the calendar has no such date.
pub(crate) fn day_number_of(year: u16, month: u8, day: u8) -> Option<u32>
    requires since { 1970 ≤ year }
    requires year { year < 10000 }
    requires month { month < 100 }
    requires day { day < 100 }
    ensures value { result ≡ (if is_in_calendar year month day then Some (days_since_1970 year month day) else None) }
    ensures bound { IfSome result (λ number. number ≤ 2_932_896) }
{
    match Date::new(year as i16, month as i8, day as i8) {
        Ok(date) => Some(date.to_unix_epoch_day().unsigned_abs()),
        Err(_) => None,
    }
}
