//! The line of a unit.

ghost use Rattle.std.specs.Prelude.{◌≡◌, ◌++◌, ◌<◌, ◌^◌, IfSome, OnOk};
ghost use Rattle.fare_calc.specs.UnitSheets.{FitsUnit};
ghost use Rattle.fare_calc.specs.Worksheet.{check_text, unit_kind_text, unit_line};

use crate::numbered_unit::NumberedUnit;
use fare_ports::NoMemory;
use fare_text::{push_hundredths, push_labelled};
use fare_units::UnitKind;

/// Appends the line of a unit.
#[tactic(auto, unfolding(crate::specs::Worksheet::unit_line))]
pub(crate) fn push_unit(text: &mut Vec<u8>, unit: &NumberedUnit) -> Result<(), NoMemory>
    requires { FitsUnit unit.now }
    ensures { OnOk result (text.new.items ≡ text.old.items ++ unit_line unit.now) }
{
    let sheet = &unit.sheet;
    push_labelled(text, b"UNIT ", u32::from(unit.number))?;
    text.push(b' ')?;
    push_unit_kind(text, sheet.kind)?;
    text.extend_from_slice(b" SUM ")?;
    push_hundredths(text, sheet.sum)?;
    text.extend_from_slice(b" CHECK ")?;
    push_check(text, sheet.kind, sheet.minimum)?;
    text.extend_from_slice(b" PRICE ")?;
    push_hundredths(text, sheet.price)?;
    Ok(text.push(b'\n')?)
}

/// Appends the kind of a unit.
fn push_unit_kind(text: &mut Vec<u8>, kind: UnitKind) -> Result<(), NoMemory>
    ensures { OnOk result (text.new.items ≡ text.old.items ++ unit_kind_text kind) }
{
    match kind {
        UnitKind::OW => Ok(text.extend_from_slice(b"OW")?),
        UnitKind::RT => Ok(text.extend_from_slice(b"RT")?),
        UnitKind::CT => Ok(text.extend_from_slice(b"CT")?),
        UnitKind::OJ => Ok(text.extend_from_slice(b"OJ")?),
    }
}

/// Appends the minimum that a unit was checked against, where its kind has one.
fn push_check(text: &mut Vec<u8>, kind: UnitKind, minimum: Option<u64>) -> Result<(), NoMemory>
    requires { IfSome minimum (λ minimum. minimum < 10 ^ 13) }
    ensures { OnOk result (text.new.items ≡ text.old.items ++ check_text kind minimum) }
{
    match (kind, minimum) {
        (UnitKind::OW, Some(backhaul)) => {
            text.extend_from_slice(b"BH ")?;
            push_hundredths(text, backhaul)
        }
        (UnitKind::CT, Some(circle)) => {
            text.extend_from_slice(b"CT ")?;
            push_hundredths(text, circle)
        }
        _ => Ok(text.extend_from_slice(b"NONE")?),
    }
}
