//! The numbers of the sectors of a part.

ghost use Rattle.std.specs.Prelude.{◌≡◌, ◌++◌, ◌+◌, ◌<◌, ◌^◌, OnOk};
ghost use Rattle.fare_json.specs.Spelled.{counted_json, numbers_json, sectors_json};

use fare_ports::NoMemory;
use fare_text::push_labelled;

/// Appends the numbers of the sectors between two points of a trip.
pub(crate) fn push_sectors(text: &mut Vec<u8>, start: u8, end: u8) -> Result<(), NoMemory>
    ensures { OnOk result (text.new.items ≡ text.old.items ++ sectors_json start end) }
{
    push_counted(
        text,
        u32::from(end.saturating_sub(start)),
        u32::from(start) + 1,
    )
}

/// Appends so many numbers from one on.
#[tactic(auto, using(crate::proofs::SectorLemmas::counted_step))]
fn push_counted(text: &mut Vec<u8>, count: u32, first: u32) -> Result<(), NoMemory>
    requires { first + count < 2 ^ 32 }
    ensures { OnOk result (text.new.items ≡ text.old.items ++ counted_json count first) }
{
    if count == 0 {
        return Ok(text.extend_from_slice(b"[]")?);
    }
    push_labelled(text, b"[", first)?;
    push_numbers(text, count - 1, first + 1)?;
    Ok(text.push(b']')?)
}

/// Appends so many numbers from one on, each behind a comma.
#[tactic(auto, unfolding(crate::specs::Spelled::numbers_json))]
fn push_numbers(text: &mut Vec<u8>, count: u32, first: u32) -> Result<(), NoMemory>
    requires { first + count < 2 ^ 32 }
    ensures { OnOk result (text.new.items ≡ text.old.items ++ numbers_json count first) }
{
    if count == 0 {
        return Ok(());
    }
    push_labelled(text, b",", first)?;
    push_numbers(text, count - 1, first + 1)?;
    Ok(())
}
