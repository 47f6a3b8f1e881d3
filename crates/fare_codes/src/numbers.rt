//! Plain numbers: decimal digits with no zero in front.

ghost use Rattle.std.specs.Prelude.{◌≡◌, ◌^◌, ◌<◌, ◌≤◌, ℕ, List, true, Some, None, IfSome, ◌&&◌, nat_le, length};
ghost use Rattle.std.specs.Prelude.{decimal, if◌then◌else◌};
ghost use Rattle.std.specs.List.{list_all};
ghost use Rattle.std.specs.Char.{is_ascii_digit};
ghost use Rattle.std.specs.Str.Parse.{digits_value_after};
ghost use Rattle.fare_codes.specs.Numbers.{is_number, read_number};

use crate::texts::all_digits;
use arrayvec::ArrayString;
use itoa::Buffer;

/// The number, at most `most`, that these bytes write; nothing exactly where they are not decimal digits with no zero
/// in front (`0` itself is one), or write a greater number. No other bytes write it.
#[tactic(auto, using(crate::proofs::NumberLemmas::number_is_digits, crate::proofs::NumberLemmas::only_decimal), unfolding(crate::specs::Numbers::read_number))]
pub fn read_number(bytes: &[u8], most: u32) -> Option<u32>
    ensures value { result ≡ read_number most bytes.now }
    ensures bound { IfSome result (λ n. n ≤ most) }
    ensures only { IfSome result (λ n. bytes.now ≡ decimal n) }
{
    if !is_number(bytes) {
        return None;
    }
    let value = value_after(0, bytes, most as u64)?;
    Some(value as u32)
}

/// The number's digits; read back they are the number.
#[tactic(auto, using(crate::proofs::NumberLemmas::length_number, crate::proofs::NumberLemmas::number_read_back))]
pub fn number_text(n: u32) -> ArrayString<16>
    ensures text { result.bytes ≡ decimal n }
    ensures read_back { (most : ℕ) → n ≤ most → read_number most (decimal n) ≡ Some n }
{
    let mut buffer = Buffer::new();
    let mut text = ArrayString::new();
    text.push_str(buffer.format(n));
    text
}

/// Whether the bytes are decimal digits with no zero in front.
#[tactic(auto, unfolding(crate::specs::Numbers::is_number))]
pub(crate) fn is_number(bytes: &[u8]) -> bool
    ensures { result ≡ is_number bytes.now }
{
    !bytes.is_empty() && all_digits(bytes) && (bytes.len() == 1 || bytes[0] != b'0')
}

/// The number that the digits write after those of `start`; nothing exactly where it is above `most`.
#[tactic(auto, using(crate::proofs::NumberLemmas::value_after_more, crate::proofs::NumberLemmas::value_after_take_le))]
pub(crate) fn value_after(start: u64, bytes: &[u8], most: u64) -> Option<u64>
    requires form { list_all is_ascii_digit bytes.now ≡ true }
    requires small { start ≤ most }
    requires room { most < 10 ^ 18 }
    ensures value { result ≡ (if nat_le (digits_value_after 10 start bytes.now) most
        then Some (digits_value_after 10 start bytes.now) else None) }
    ensures bound { IfSome result (λ n. n ≤ most) }
{
    let mut value = start;
    for byte in bytes {
        value = 10 * value + (*byte - b'0') as u64;
        if value > most {
            return None;
        }
    }
    Some(value)
}
