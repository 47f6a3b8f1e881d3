//! Tests and texts of plain bytes that every code shares.

ghost use Rattle.std.specs.Prelude.{◌≡◌, ◌≤◌, true, length};
ghost use Rattle.std.specs.List.{list_all};
ghost use Rattle.std.specs.Char.{is_ascii, is_ascii_uppercase, is_ascii_digit};
ghost use Rattle.fare_codes.specs.Codes.{is_code_character};

use arrayvec::ArrayString;

/// Whether every byte is a letter A to Z.
pub(crate) fn all_uppercase(bytes: &[u8]) -> bool
    ensures { result ≡ list_all is_ascii_uppercase bytes.now }
{
    bytes.iter().all(|byte| byte.is_ascii_uppercase())
}

/// Whether every byte is a letter A to Z or a digit.
pub(crate) fn all_code_characters(bytes: &[u8]) -> bool
    ensures { result ≡ list_all is_code_character bytes.now }
{
    bytes
        .iter()
        .all(|byte| byte.is_ascii_uppercase() || byte.is_ascii_digit())
}

/// Whether every byte is a digit.
pub(crate) fn all_digits(bytes: &[u8]) -> bool
    ensures { result ≡ list_all is_ascii_digit bytes.now }
{
    bytes.iter().all(|byte| byte.is_ascii_digit())
}

/// The text of these ASCII bytes.
pub(crate) fn ascii_text(bytes: &[u8]) -> ArrayString<16>
    requires ascii { list_all is_ascii bytes.now ≡ true }
    requires short { length bytes.now ≤ 16 }
    ensures { result.bytes ≡ bytes.now }
{
    let mut text = ArrayString::new();
    for byte in bytes {
        text.push(*byte as char);
    }
    text
}
