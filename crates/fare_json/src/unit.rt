//! A pricing unit of a construction.

ghost use Rattle.std.specs.Prelude.{◌≡◌, ◌++◌, ◌<◌, ◌^◌, IfSome, OnOk};
ghost use Rattle.fare_calc.specs.UnitSheets.{FitsUnit};
ghost use Rattle.fare_calc.specs.Worksheet.{unit_kind_text};
ghost use Rattle.fare_json.specs.Spelled.{checked_json, minimum_json, unit_json};

use crate::writing::push_money;
use fare_calc::NumberedUnit;
use fare_ports::NoMemory;
use fare_text::push_labelled;
use fare_units::UnitKind;

/// Appends a unit.
#[tactic(auto, unfolding(crate::specs::Spelled::unit_json))]
pub(crate) fn push_unit(text: &mut Vec<u8>, unit: &NumberedUnit) -> Result<(), NoMemory>
    requires { FitsUnit unit.now }
    ensures { OnOk result (text.new.items ≡ text.old.items ++ unit_json unit.now) }
{
    let sheet = &unit.sheet;
    text.extend_from_slice(b"{\"kind\":\"")?;
    push_kind(text, sheet.kind)?;
    text.extend_from_slice(b"\",\"minimum\":")?;
    push_minimum(text, sheet.kind, sheet.minimum)?;
    push_labelled(text, b",\"number\":", u32::from(unit.number))?;
    push_money(text, b",\"price\":", sheet.price)?;
    push_money(text, b",\"sum\":", sheet.sum)?;
    Ok(text.push(b'}')?)
}

/// Appends the kind of a unit.
fn push_kind(text: &mut Vec<u8>, kind: UnitKind) -> Result<(), NoMemory>
    ensures { OnOk result (text.new.items ≡ text.old.items ++ unit_kind_text kind) }
{
    match kind {
        UnitKind::OW => Ok(text.extend_from_slice(b"OW")?),
        UnitKind::RT => Ok(text.extend_from_slice(b"RT")?),
        UnitKind::CT => Ok(text.extend_from_slice(b"CT")?),
        UnitKind::OJ => Ok(text.extend_from_slice(b"OJ")?),
    }
}

/// Appends the minimum that a unit was checked against, where its kind has one.
fn push_minimum(text: &mut Vec<u8>, kind: UnitKind, minimum: Option<u64>) -> Result<(), NoMemory>
    requires { IfSome minimum (λ minimum. minimum < 10 ^ 13) }
    ensures { OnOk result (text.new.items ≡ text.old.items ++ minimum_json kind minimum) }
{
    match (kind, minimum) {
        (UnitKind::OW, Some(backhaul)) => push_checked(text, backhaul, b"BH"),
        (UnitKind::CT, Some(circle)) => push_checked(text, circle, b"CT"),
        _ => Ok(text.extend_from_slice(b"null")?),
    }
}

/// Appends a minimum with the name of its check.
#[tactic(auto, unfolding(crate::specs::Spelled::checked_json))]
fn push_checked(text: &mut Vec<u8>, minimum: u64, check: &[u8]) -> Result<(), NoMemory>
    requires { minimum < 10 ^ 13 }
    ensures { OnOk result (text.new.items ≡ text.old.items ++ checked_json minimum check.now) }
{
    push_money(text, b"{\"amount\":", minimum)?;
    text.extend_from_slice(b",\"check\":\"")?;
    text.extend_from_slice(check)?;
    Ok(text.extend_from_slice(b"\"}")?)
}
