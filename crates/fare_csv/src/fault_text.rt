//! The text of a fault.

ghost use Rattle.std.specs.Prelude.{◌≡◌, ◌≤◌, ◌++◌, length, codes, decimal};
ghost use Rattle.arrayvec.specs.ArrayString.{array_string_len};
ghost use Rattle.fare_csv.specs.FaultText.{fault_text, fault_words, kind_words, of_record};

use crate::text_fault::TextFault;
use arrayvec::ArrayString;
use fare_codes::number_text;
use fare_tariff::CheckKind;
use fare_text::{push_short_number, short_text};

impl TextFault {
    /// Its text without the LF that ends the line: `TARIFF` and its words; empty for want of memory.
    pub fn text(&self) -> ArrayString<64>
        ensures { result.bytes ≡ fault_text self.now }
    {
        match *self {
            TextFault::Memory => ArrayString::new(),
            _ => behind_the_first_word(&self.words()),
        }
    }

    /// What is wrong: the record's number, the fault's name and its further number; empty for want of memory.
    pub fn words(&self) -> ArrayString<64>
        ensures words { result.bytes ≡ fault_words self.now }
        ensures short { array_string_len result ≤ 48 }
    {
        match *self {
            TextFault::Memory => ArrayString::new(),
            TextFault::NoHeader => of_record(1, "NoHeader"),
            TextFault::UnknownRecord(number) => of_record(number, "UnknownRecord"),
            TextFault::BadRecord(number, field) => of_record_and(number, "BadRecord ", field),
            TextFault::AfterEnd(number) => of_record(number, "AfterEnd"),
            TextFault::NoEnd(number) => of_record(number, "NoEnd"),
            TextFault::Check(number, kind) => of_kind(number, kind),
        }
    }
}

/// `TARIFF` and these words.
fn behind_the_first_word(words: &ArrayString<64>) -> ArrayString<64>
    requires { array_string_len words.now ≤ 48 }
    ensures { result.bytes ≡ codes "TARIFF " ++ words.now.bytes }
{
    let mut text = short_text("TARIFF ");
    text.push_str(words.as_str());
    text
}

/// The words of a record that has a check kind.
fn of_kind(number: u32, kind: CheckKind) -> ArrayString<64>
    ensures words { result.bytes ≡ of_record number (kind_words kind) }
    ensures short { array_string_len result ≤ 48 }
{
    match kind {
        CheckKind::Duplicate(first) => of_record_and(number, "Duplicate ", first),
        CheckKind::UnknownCity => of_record(number, "UnknownCity"),
        CheckKind::UnknownRule => of_record(number, "UnknownRule"),
        CheckKind::UnknownCurrency => of_record(number, "UnknownCurrency"),
        CheckKind::TooManyFares => of_record(number, "TooManyFares"),
        CheckKind::SamePoint => of_record(number, "SamePoint"),
        CheckKind::ZeroMileage => of_record(number, "ZeroMileage"),
        CheckKind::OutOfLimit => of_record(number, "OutOfLimit"),
        CheckKind::Overlap(first) => of_record_and(number, "Overlap ", first),
    }
}

/// A record's number and the name of what is wrong with it.
fn of_record(number: u32, name: &str) -> ArrayString<64>
    requires { length name.now ≤ 15 }
    ensures words { result.bytes ≡ of_record number name.now }
    ensures short { array_string_len result ≤ 32 }
{
    let mut text = ArrayString::new();
    let digits = number_text(number);
    text.push_str(digits.as_str());
    text.push_str(" ");
    text.push_str(name);
    text
}

/// The same, and a further number.
fn of_record_and(number: u32, name: &str, further: u32) -> ArrayString<64>
    requires { length name.now ≤ 15 }
    ensures words { result.bytes ≡ of_record number (name.now ++ decimal further) }
    ensures short { array_string_len result ≤ 48 }
{
    let mut text = of_record(number, name);
    push_short_number(&mut text, further);
    text
}
