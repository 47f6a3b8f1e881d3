//! Totals and their change.

ghost use Rattle.std.specs.Prelude.{◌≡◌, ◌++◌, OnOk};
ghost use Rattle.fare_codes.specs.Numbers.{nuc_text};
ghost use Rattle.fare_changes.specs.CompareText.{change_text, total_change, total_text};

use fare_ports::NoMemory;
use fare_text::push_decimal;

/// The decimals of an amount in NUC.
const NUC_DECIMALS: u8 = 2;

/// Appends an amount of so many hundredths, however great.
pub(crate) fn push_amount(text: &mut Vec<u8>, hundredths: u128) -> Result<(), NoMemory>
    ensures { OnOk result (text.new.items ≡ text.old.items ++ nuc_text hundredths) }
{
    push_decimal(text, hundredths, NUC_DECIMALS)
}

/// Appends the change of an amount to another: the difference behind its sign, or `0.00`.
#[tactic(auto, unfolding(crate::specs::CompareText::change_text))]
pub(crate) fn push_change(text: &mut Vec<u8>, old: u128, new: u128) -> Result<(), NoMemory>
    ensures { OnOk result (text.new.items ≡ text.old.items ++ change_text old new) }
{
    if old == new {
        return Ok(text.extend_from_slice(b"0.00")?);
    }
    if old < new {
        text.push(b'+')?;
        return push_amount(text, new - old);
    }
    text.push(b'-')?;
    push_amount(text, old - new)
}

/// Appends a total, `-` where there is none.
pub(crate) fn push_total(text: &mut Vec<u8>, total: Option<u64>) -> Result<(), NoMemory>
    ensures { OnOk result (text.new.items ≡ text.old.items ++ total_text total) }
{
    match total {
        None => Ok(text.push(b'-')?),
        Some(total) => push_amount(text, u128::from(total)),
    }
}

/// Appends the change of a total to another, `-` where one of them isn't there.
pub(crate) fn push_total_change(
    text: &mut Vec<u8>,
    old: Option<u64>,
    new: Option<u64>,
) -> Result<(), NoMemory>
    ensures { OnOk result (text.new.items ≡ text.old.items ++ total_change old new) }
{
    match (old, new) {
        (Some(old), Some(new)) => push_change(text, u128::from(old), u128::from(new)),
        _ => Ok(text.push(b'-')?),
    }
}
