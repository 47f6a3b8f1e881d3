//! Codes, numbers and amounts at the end of a text that grows.

ghost use Rattle.std.specs.Prelude.{◌≡◌, ◌++◌, ◌<◌, ◌≤◌, ◌^◌, OnOk, decimal};
ghost use Rattle.fare_codes.specs.Numbers.{decimal_text, last_digits, nuc_text};

use arrayvec::ArrayString;
use fare_codes::{Nuc, number_text};
use fare_ports::NoMemory;
use itoa::Buffer;

/// Appends the text of a code or a number.
pub fn push_code(text: &mut Vec<u8>, code: &ArrayString<16>) -> Result<(), NoMemory>
    ensures { OnOk result (text.new.items ≡ text.old.items ++ code.now.bytes) }
{
    Ok(text.extend_from_slice(code.as_str().as_bytes())?)
}

/// Appends a number.
pub fn push_number(text: &mut Vec<u8>, n: u32) -> Result<(), NoMemory>
    ensures { OnOk result (text.new.items ≡ text.old.items ++ decimal n) }
{
    push_code(text, &number_text(n))
}

/// Appends an amount of so many hundredths.
pub fn push_hundredths(text: &mut Vec<u8>, hundredths: u64) -> Result<(), NoMemory>
    requires { hundredths < 10 ^ 13 }
    ensures { OnOk result (text.new.items ≡ text.old.items ++ nuc_text hundredths) }
{
    push_code(text, &Nuc::new(hundredths).text())
}

/// Appends a number behind its label.
pub fn push_labelled(text: &mut Vec<u8>, label: &[u8], n: u32) -> Result<(), NoMemory>
    ensures { OnOk result (text.new.items ≡ text.old.items ++ label.now ++ decimal n) }
{
    text.extend_from_slice(label)?;
    push_number(text, n)
}

/// Appends a number of any size.
pub fn push_whole(text: &mut Vec<u8>, n: u128) -> Result<(), NoMemory>
    ensures { OnOk result (text.new.items ≡ text.old.items ++ decimal n) }
{
    let mut buffer = Buffer::new();
    Ok(text.extend_from_slice(buffer.format(n).as_bytes())?)
}

/// Appends a number of units of the last of so many places, with a point before the places.
#[tactic(auto, using(crate::proofs::Digits::power_is_some), unfolding(fare_codes::specs::Numbers::decimal_text))]
pub fn push_decimal(text: &mut Vec<u8>, units: u128, places: u8) -> Result<(), NoMemory>
    requires { places ≤ 6 }
    ensures { OnOk result (text.new.items ≡ text.old.items ++ decimal_text places units) }
{
    let power = 10u128.pow(places as u32);
    push_whole(text, units / power)?;
    text.push(b'.')?;
    push_last_digits(text, units, places)
}

/// Appends the last so many digits of a number.
#[tactic(auto, unfolding(fare_codes::specs::Numbers::last_digits))]
fn push_last_digits(text: &mut Vec<u8>, n: u128, places: u8) -> Result<(), NoMemory>
    requires { places ≤ 6 }
    ensures { OnOk result (text.new.items ≡ text.old.items ++ last_digits places n) }
{
    if places == 0 {
        return Ok(());
    }
    push_last_digits(text, n / 10, places - 1)?;
    Ok(text.push(b'0' + (n % 10) as u8)?)
}
