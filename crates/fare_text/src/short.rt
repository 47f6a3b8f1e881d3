//! The short texts of faults.

ghost use Rattle.std.specs.Prelude.{◌≡◌, ◌≤◌, ◌+◌, ◌++◌, length, decimal};
ghost use Rattle.arrayvec.specs.ArrayString.{array_string_len};

use arrayvec::ArrayString;
use fare_codes::number_text;

/// A short text of these words.
pub fn short_text(words: &str) -> ArrayString<64>
    requires { length words.now ≤ 64 }
    ensures { result.bytes ≡ words.now }
{
    let mut text = ArrayString::new();
    text.push_str(words);
    text
}

/// Appends a number to a short text.
pub fn push_short_number(text: &mut ArrayString<64>, n: u32)
    requires { array_string_len text.old ≤ 48 }
    ensures text { text.new.bytes ≡ text.old.bytes ++ decimal n }
    ensures longer { array_string_len text.new ≤ array_string_len text.old + 16 }
{
    let digits = number_text(n);
    text.push_str(digits.as_str());
}
