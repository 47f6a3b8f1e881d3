//! The text that sums up a drill.

ghost use Rattle.std.specs.Prelude.{◌≡◌, ◌++◌, OnOk, IfOk};
ghost use Rattle.std.specs.Option.{option_copied};
ghost use Rattle.fare_drill.specs.Summary.{drill_text, result_lines};

use fare_ports::NoMemory;
use fare_text::{push_decimal, push_labelled};
use fare_units::{Construction, unit_count};
use std::alloc::Global;

/// Three lines: the drill's seed and sectors with the number of its edition's records; the price, in hundredths of NUC,
/// of the best construction, or that there is no fare; and how many parts and pricing units it has.
#[tactic(auto, unfolding(crate::specs::Summary::drill_text))]
pub fn drill_text(
    alloc: Global,
    seed: u32,
    sectors: u32,
    records: u32,
    best: Option<&(Construction, u64)>,
) -> Result<Vec<u8>, NoMemory>
    ensures { IfOk result (λ text. text.items ≡ drill_text seed sectors records (option_copied best.entry)) }
{
    let mut text = Vec::new(alloc);
    push_labelled(&mut text, b"DRILL seed ", seed)?;
    push_labelled(&mut text, b" sectors ", sectors)?;
    push_labelled(&mut text, b" records ", records)?;
    text.push(b'\n')?;
    push_result(&mut text, best)?;
    Ok(text)
}

/// Appends the lines of the best construction, or of none.
fn push_result(text: &mut Vec<u8>, best: Option<&(Construction, u64)>) -> Result<(), NoMemory>
    ensures { OnOk result (text.new.items ≡ text.old.items ++ result_lines (option_copied best.entry)) }
{
    match best {
        None => Ok(text.extend_from_slice(b"NO FARE\nPARTS 0 UNITS 0\n")?),
        Some(found) => {
            text.extend_from_slice(b"TOTAL NUC ")?;
            push_decimal(text, u128::from(found.1), 2)?;
            push_labelled(text, b"\nPARTS ", found.0.parts().len() as u32)?;
            push_labelled(text, b" UNITS ", unit_count(&found.0) as u32)?;
            Ok(text.push(b'\n')?)
        }
    }
}
