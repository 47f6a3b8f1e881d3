//! Decimals: a number, a point and a fixed number of places, as whole units of the last place.

ghost use Rattle.std.specs.Prelude.{◌≡◌, true, ◌+◌, ◌<◌, ◌≤◌, ◌++◌, Some, IfSome, length, decimal};
ghost use Rattle.std.specs.List.{list_all};
ghost use Rattle.std.specs.Char.{is_ascii_digit};
ghost use Rattle.std.specs.Str.Parse.{digits_value};
ghost use Rattle.arrayvec.specs.ArrayString.{array_string_len};
ghost use Rattle.fare_codes.specs.Numbers.{is_decimal, decimal_value, read_decimal, decimal_text, last_digits};
ghost use Rattle.fare_codes.specs.Numbers.{read_rate, rate_text};

use crate::numbers::{is_number, value_after};
use crate::texts::all_digits;
use arrayvec::ArrayString;
use itoa::Buffer;

/// Every decimal has fewer units of its last place: it has at most fourteen characters, one of them its point.
const UNIT_LIMIT: u64 = 10_000_000_000_000;

/// Every rate is below this many millionths: it has at most seven digits before its point.
pub const RATE_LIMIT: u64 = 10_000_000_000_000;

/// The rate in millionths that these bytes write; nothing exactly where they are not a number of at most seven digits,
/// a point and six digits. No other bytes write it.
pub fn read_rate(bytes: &[u8]) -> Option<u64>
    ensures value { result ≡ read_rate bytes.now }
    ensures bound { IfSome result (λ n. n < RATE_LIMIT) }
    ensures only { IfSome result (λ n. bytes.now ≡ rate_text n) }
{
    read_decimal(bytes, 6)
}

/// The rate of this many millionths; read back it is the rate.
#[tactic(auto, using(crate::proofs::DecimalLemmas::decimal_read_back))]
pub fn rate_text(millionths: u64) -> ArrayString<16>
    requires { millionths < RATE_LIMIT }
    ensures text { result.bytes ≡ rate_text millionths }
    ensures read_back { read_rate (rate_text millionths) ≡ Some millionths }
{
    decimal_text(millionths, 6)
}

/// The units of the last place that these bytes write as a decimal; nothing exactly where they are none.
#[tactic(auto, using(crate::proofs::DecimalLemmas::decimal_bound, crate::proofs::DecimalLemmas::only_decimal_text))]
pub(crate) fn read_decimal(bytes: &[u8], places: usize) -> Option<u64>
    requires { places ≤ 6 }
    ensures value { result ≡ read_decimal places bytes.now }
    ensures bound { IfSome result (λ n. n < UNIT_LIMIT) }
    ensures only { IfSome result (λ n. bytes.now ≡ decimal_text places n) }
{
    if !is_decimal(bytes, places) {
        return None;
    }
    value_of(bytes, places)
}

/// Whether the bytes are a number, a point and so many digits, in at most fourteen characters.
#[tactic(auto, unfolding(crate::specs::Numbers::is_decimal))]
fn is_decimal(bytes: &[u8], places: usize) -> bool
    requires { places ≤ 6 }
    ensures { result ≡ is_decimal places bytes.now }
{
    if bytes.len() <= places + 1 || bytes.len() > 14 {
        return false;
    }
    let point = bytes.len() - (places + 1);
    is_number(&bytes[..point]) && bytes[point] == b'.' && all_digits(&bytes[point + 1..])
}

/// The units of the last place that a decimal writes.
fn value_of(bytes: &[u8], places: usize) -> Option<u64>
    requires places { places ≤ 6 }
    requires form { is_decimal places bytes.now ≡ true }
    ensures { result ≡ Some (decimal_value places bytes.now) }
{
    let point = bytes.len() - (places + 1);
    joined_value(&bytes[..point], &bytes[point + 1..])
}

/// The number that digits and further digits write together.
#[tactic(auto, using(crate::proofs::NumberLemmas::value_after_joined))]
fn joined_value(before: &[u8], behind: &[u8]) -> Option<u64>
    requires before { list_all is_ascii_digit before.now ≡ true }
    requires behind { list_all is_ascii_digit behind.now ≡ true }
    requires small { digits_value 10 (before.now ++ behind.now) < UNIT_LIMIT }
    ensures { result ≡ Some (digits_value 10 (before.now ++ behind.now)) }
{
    let whole = value_after(0, before, UNIT_LIMIT - 1)?;
    value_after(whole, behind, UNIT_LIMIT - 1)
}

/// The units of the last place, written as a decimal.
pub(crate) fn decimal_text(n: u64, places: usize) -> ArrayString<16>
    requires units { n < UNIT_LIMIT }
    requires places { places ≤ 6 }
    ensures { result.bytes ≡ decimal_text places n }
{
    let mut buffer = Buffer::new();
    let mut text = ArrayString::new();
    text.push_str(buffer.format(n / 10u64.pow(places as u32)));
    text.push('.');
    push_last_digits(&mut text, n, places);
    text
}

/// Writes the last so many digits of a number.
fn push_last_digits(text: &mut ArrayString<16>, n: u64, places: usize)
    requires room { array_string_len text.old + places ≤ 16 }
    requires places { places ≤ 6 }
    ensures { text.new.bytes ≡ text.old.bytes ++ last_digits places n }
{
    let mut unit = 10u64.pow(places as u32);
    for _ in 0..places {
        unit /= 10;
        text.push((b'0' + (n / unit % 10) as u8) as char);
    }
}
