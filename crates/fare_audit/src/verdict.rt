//! The verdict of an audit, and its text.

ghost use Rattle.std.specs.Prelude.{◌≡◌, ◌++◌, IfOk, OnOk};
ghost use Rattle.fare_audit.specs.VerdictText.{verdict_text, verdict_words};

use fare_ports::NoMemory;
use fare_rules::Broken;
use fare_text::{push_decimal, push_labelled};
use std::alloc::Global;

/// What an audit answers of a line that is presented for a trip: the first of these that applies.
#[derive(Clone, Copy, Debug)]
pub enum Verdict {
    /// The line is that of another trip: this is the first sector at which they differ, 0 where they begin in different
    /// cities.
    OtherTrip(u32),
    /// This is the first part, from 1, for which no FARE record is filed.
    NoRecord(u32),
    /// The construction of the line breaks this rule, the first one, at this place.
    Broken(Broken),
    /// The construction is lawful, and the line has other figures: this is the first part, from 1, with another letter,
    /// pair or amount, or the number of parts plus 1 where no part has.
    Figures(u32),
    /// The line is that of a lawful construction.
    Lawful {
        /// Its price, in hundredths of a NUC.
        price: u64,
        /// By how much the price is above the least price of a lawful construction, in hundredths of a NUC.
        over: u64,
    },
}

/// The text of a verdict: one line, with the LF that ends it.
pub fn verdict_text(alloc: Global, verdict: &Verdict) -> Result<Vec<u8>, NoMemory>
    ensures { IfOk result (λ text. text.items ≡ verdict_text verdict.now) }
{
    let mut text = Vec::new(alloc);
    push_verdict(&mut text, verdict)?;
    text.push(b'\n')?;
    Ok(text)
}

/// Appends the words of a verdict and its numbers. After want of memory a part of them may stand there.
fn push_verdict(text: &mut Vec<u8>, verdict: &Verdict) -> Result<(), NoMemory>
    ensures { OnOk result (text.new.items ≡ text.old.items ++ verdict_words verdict.now) }
{
    match *verdict {
        Verdict::OtherTrip(number) => push_labelled(text, b"OTHER TRIP ", number),
        Verdict::NoRecord(place) => push_labelled(text, b"NO RECORD ", place),
        Verdict::Broken(broken) => {
            push_labelled(text, b"BROKEN ", u32::from(broken.rule))?;
            push_labelled(text, b" ", broken.place)
        }
        Verdict::Figures(place) => push_labelled(text, b"FIGURES ", place),
        Verdict::Lawful { price, over } => {
            text.extend_from_slice(b"LAWFUL ")?;
            push_decimal(text, u128::from(price), 2)?;
            text.extend_from_slice(b" OVER ")?;
            push_decimal(text, u128::from(over), 2)
        }
    }
}
