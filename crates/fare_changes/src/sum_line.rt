//! The last line, which counts and sums items up.

ghost use Rattle.std.specs.Prelude.{◌≡◌, ◌++◌, OnOk, decimal};
ghost use Rattle.fare_changes.specs.CompareText.{count_of, counts_text, sum_line, sums_text};

use crate::change::{push_amount, push_change};
use crate::compared::Compared;
use crate::outcome::{Outcome, count_of};
use crate::sums::sums_of;
use fare_ports::NoMemory;
use fare_text::{push_labelled, push_whole};

/// Appends how many items have an outcome, behind its name.
fn push_count(
    text: &mut Vec<u8>,
    name: &[u8],
    outcome: Outcome,
    compared: &[Compared],
) -> Result<(), NoMemory>
    ensures { OnOk result (text.new.items ≡ text.old.items ++ name.now ++ decimal (count_of outcome compared.now)) }
{
    text.extend_from_slice(name)?;
    push_whole(text, count_of(outcome, compared) as u128)
}

/// Appends how many items have each outcome.
#[tactic(auto, unfolding(crate::specs::CompareText::counts_text))]
fn push_counts(text: &mut Vec<u8>, compared: &[Compared]) -> Result<(), NoMemory>
    ensures { OnOk result (text.new.items ≡ text.old.items ++ counts_text compared.now) }
{
    push_count(text, b" same ", Outcome::Same, compared)?;
    push_count(text, b" dearer ", Outcome::Dearer, compared)?;
    push_count(text, b" cheaper ", Outcome::Cheaper, compared)?;
    push_count(text, b" opened ", Outcome::Opened, compared)?;
    push_count(text, b" closed ", Outcome::Closed, compared)?;
    push_count(text, b" none ", Outcome::Neither, compared)?;
    push_count(text, b" faults ", Outcome::Fault, compared)
}

/// Appends the sums of the totals, and their change.
#[tactic(auto, unfolding(crate::specs::CompareText::sums_text))]
fn push_sums(text: &mut Vec<u8>, compared: &[Compared]) -> Result<(), NoMemory>
    ensures { OnOk result (text.new.items ≡ text.old.items ++ sums_text compared.now) }
{
    let sums = sums_of(compared);
    text.extend_from_slice(b" old ")?;
    push_amount(text, sums.old)?;
    text.extend_from_slice(b" new ")?;
    push_amount(text, sums.new)?;
    text.extend_from_slice(b" change ")?;
    push_change(text, sums.old, sums.new)
}

/// Appends the last line, over two editions of these numbers.
#[tactic(auto, unfolding(crate::specs::CompareText::sum_line))]
pub(crate) fn push_sum_line(
    text: &mut Vec<u8>,
    old: u32,
    new: u32,
    compared: &[Compared],
) -> Result<(), NoMemory>
    ensures { OnOk result (text.new.items ≡ text.old.items ++ sum_line old new compared.now) }
{
    push_labelled(text, b"COMPARE ", old)?;
    push_labelled(text, b" ", new)?;
    text.extend_from_slice(b" items ")?;
    push_whole(text, compared.len() as u128)?;
    push_counts(text, compared)?;
    push_sums(text, compared)?;
    Ok(text.push(b'\n')?)
}
