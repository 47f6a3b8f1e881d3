//! Strings, members and amounts at the end of a text.

ghost use Rattle.std.specs.Prelude.{◌≡◌, ◌++◌, ◌<◌, ◌^◌, OnOk};
ghost use Rattle.std.specs.Char.{digit_char};
ghost use Rattle.std.specs.List.{flat_map};
ghost use Rattle.json.specs.Print.{escape_byte, escape_letter};
ghost use Rattle.fare_json.specs.Spelled.{flag_json, money_json, string_json};

use arrayvec::ArrayString;
use fare_codes::Nuc;
use fare_ports::NoMemory;

/// Appends a string: the bytes between quotation marks, each as JSON spells it. After want of memory the text may hold
/// a part of it.
#[tactic(auto, unfolding(crate::specs::Spelled::string_json))]
pub fn push_string(text: &mut Vec<u8>, bytes: &[u8]) -> Result<(), NoMemory>
    ensures { OnOk result (text.new.items ≡ text.old.items ++ string_json bytes.now) }
{
    text.push(b'"')?;
    push_escaped(text, bytes)?;
    Ok(text.push(b'"')?)
}

/// Appends bytes, each as it is spelled within a string.
fn push_escaped(text: &mut Vec<u8>, bytes: &[u8]) -> Result<(), NoMemory>
    ensures { OnOk result (text.new.items ≡ text.old.items ++ flat_map escape_byte bytes.now) }
{
    for byte in bytes {
        push_byte(text, *byte)?;
    }
    Ok(())
}

/// Appends a byte as it is spelled within a string.
#[tactic(auto, unfolding(json::specs::Print::escape_byte))]
fn push_byte(text: &mut Vec<u8>, byte: u8) -> Result<(), NoMemory>
    ensures { OnOk result (text.new.items ≡ text.old.items ++ escape_byte byte) }
{
    let letter = escape_letter(byte);
    if 0 < letter {
        text.push(b'\\')?;
        Ok(text.push(letter)?)
    } else if byte < 32 {
        text.extend_from_slice(b"\\u00")?;
        text.push(digit_char(byte / 16))?;
        Ok(text.push(digit_char(byte % 16))?)
    } else {
        Ok(text.push(byte)?)
    }
}

/// The letter of a byte's short spelling, or 0 where it has none.
fn escape_letter(byte: u8) -> u8
    ensures { result ≡ escape_letter byte }
{
    if byte == b'"' || byte == b'\\' {
        byte
    } else if byte == 8 {
        b'b'
    } else if byte == 12 {
        b'f'
    } else if byte == b'\n' {
        b'n'
    } else if byte == b'\r' {
        b'r'
    } else if byte == b'\t' {
        b't'
    } else {
        0
    }
}

/// A digit below 16.
fn digit_char(digit: u8) -> u8
    requires { digit < 16 }
    ensures { result ≡ digit_char digit }
{
    if digit < 10 { 48 + digit } else { 87 + digit }
}

/// Appends words and then a code as a string.
pub(crate) fn push_named(
    text: &mut Vec<u8>,
    words: &[u8],
    code: &ArrayString<16>,
) -> Result<(), NoMemory>
    ensures { OnOk result (text.new.items ≡ text.old.items ++ words.now ++ string_json code.now.bytes) }
{
    text.extend_from_slice(words)?;
    push_string(text, code.as_str().as_bytes())
}

/// Appends words and then an amount of so many hundredths as a string.
pub fn push_money(text: &mut Vec<u8>, words: &[u8], hundredths: u64) -> Result<(), NoMemory>
    requires { hundredths < 10 ^ 13 }
    ensures { OnOk result (text.new.items ≡ text.old.items ++ words.now ++ money_json hundredths) }
{
    push_named(text, words, &Nuc::new(hundredths).text())
}

/// Appends a truth.
pub(crate) fn push_flag(text: &mut Vec<u8>, flag: bool) -> Result<(), NoMemory>
    ensures { OnOk result (text.new.items ≡ text.old.items ++ flag_json flag) }
{
    if flag {
        Ok(text.extend_from_slice(b"true")?)
    } else {
        Ok(text.extend_from_slice(b"false")?)
    }
}
