//! The sentences of the verdicts of an audit.

ghost use Rattle.std.specs.Prelude.{◌≡◌, ◌++◌, IfOk, OnOk};
ghost use Rattle.fare_sentences.specs.VerdictWords.{dearer_words, figures_words, lawful_words, other_trip_words};
ghost use Rattle.fare_sentences.specs.VerdictWords.{verdict_words};

use crate::broken_words::push_broken;
use crate::sentence::push_around;
use fare_audit::Verdict;
use fare_ports::NoMemory;
use fare_text::push_decimal;
use std::alloc::Global;

/// The sentence of the verdict on a line of so many parts.
pub fn verdict_words(alloc: Global, parts: usize, verdict: &Verdict) -> Result<Vec<u8>, NoMemory>
    ensures { IfOk result (λ text. text.items ≡ verdict_words parts verdict.now) }
{
    let mut text = Vec::new(alloc);
    push_verdict_words(&mut text, parts, verdict)?;
    Ok(text)
}

/// Appends the sentence of the verdict on a line of so many parts.
fn push_verdict_words(text: &mut Vec<u8>, parts: usize, verdict: &Verdict) -> Result<(), NoMemory>
    ensures { OnOk result (text.new.items ≡ text.old.items ++ verdict_words parts verdict.now) }
{
    match *verdict {
        Verdict::OtherTrip(sector) => push_other_trip(text, sector),
        Verdict::NoRecord(place) => {
            push_around(text, b"no record files the fare of part ", place, b"")
        }
        Verdict::Broken(broken) => push_broken(text, broken.rule, broken.place),
        Verdict::Figures(place) => push_figures(text, parts, place),
        Verdict::Lawful { price: _, over } => push_lawful(text, over),
    }
}

/// Appends the sentence of a sector at which a line and a trip differ.
fn push_other_trip(text: &mut Vec<u8>, sector: u32) -> Result<(), NoMemory>
    ensures { OnOk result (text.new.items ≡ text.old.items ++ other_trip_words sector) }
{
    if sector == 0 {
        return Ok(text.extend_from_slice(b"the line begins in another city than the trip")?);
    }
    push_around(
        text,
        b"the line and the trip differ at sector ",
        sector,
        b"",
    )
}

/// Appends the sentence of a part with other figures, or of the number of parts plus 1.
fn push_figures(text: &mut Vec<u8>, parts: usize, place: u32) -> Result<(), NoMemory>
    ensures { OnOk result (text.new.items ≡ text.old.items ++ figures_words parts place) }
{
    if place as usize <= parts {
        return push_around(
            text,
            b"the letter, the pair or the amount of part ",
            place,
            b" is wrong",
        );
    }
    Ok(text.extend_from_slice(
        b"the figures of the parts are right, and something else of the line is wrong",
    )?)
}

/// Appends the sentence of a lawful line, by what its price is over the least one.
fn push_lawful(text: &mut Vec<u8>, over: u64) -> Result<(), NoMemory>
    ensures { OnOk result (text.new.items ≡ text.old.items ++ lawful_words over) }
{
    if over == 0 {
        return Ok(text.extend_from_slice(b"the line is lawful, and no lawful one costs less")?);
    }
    push_dearer(text, over)
}

/// Appends the sentence of a lawful line whose price is so much over the least one.
#[tactic(auto, unfolding(crate::specs::VerdictWords::dearer_words))]
fn push_dearer(text: &mut Vec<u8>, over: u64) -> Result<(), NoMemory>
    ensures { OnOk result (text.new.items ≡ text.old.items ++ dearer_words over) }
{
    text.extend_from_slice(b"the line is lawful, and a lawful one costs ")?;
    push_decimal(text, u128::from(over), 2)?;
    Ok(text.extend_from_slice(b" less")?)
}
