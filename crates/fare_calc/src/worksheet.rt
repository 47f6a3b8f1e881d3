//! The worksheet of a construction.

ghost use Rattle.std.specs.Prelude.{◌≡◌, ◌++◌, None, IfOk, OnOk, All};
ghost use Rattle.std.specs.List.{flat_map};
ghost use Rattle.fare_rules.specs.Lawful.{first_broken};
ghost use Rattle.fare_calc.specs.UnitSheets.{FitsUnit};
ghost use Rattle.fare_calc.specs.Worksheet.{part_lines, unit_line, worksheet_text};

mod part;
mod total;
mod unit;

use crate::numbered_unit::NumberedUnit;
use crate::part_sheet::PartSheet;
use crate::priced::Priced;
use crate::sheets::Sheets;
use fare_ports::NoMemory;
use fare_tariff::Edition;
use fare_trip::Trip;
use fare_units::Construction;
use part::push_part;
use std::alloc::Global;
use total::push_total;
use unit::push_unit;

/// The worksheet of a lawful construction: five lines for each part, one for each unit, and the price in NUC and in the
/// currency of the country where the trip begins.
pub fn worksheet_text(
    alloc: Global,
    edition: &Edition,
    trip: &Trip,
    c: &Construction,
) -> Result<Vec<u8>, NoMemory>
    requires { first_broken edition.now trip.now c.now ≡ None }
    ensures { IfOk result (λ text. text.items ≡ worksheet_text edition.now trip.now c.now) }
{
    let mut text = Vec::new(alloc);
    push_worksheet(&mut text, &Sheets::of(&Priced::of(edition, trip, c)))?;
    Ok(text)
}

/// Appends the worksheet of a lawful construction.
#[tactic(auto, unfolding(crate::specs::Worksheet::worksheet_text))]
pub(crate) fn push_worksheet(text: &mut Vec<u8>, sheets: &Sheets<'_>) -> Result<(), NoMemory>
    ensures { OnOk result
        (text.new.items ≡ text.old.items ++ worksheet_text sheets.now.edition sheets.now.trip sheets.now.parts) }
{
    push_parts(text, sheets.parts())?;
    push_units(text, sheets.units())?;
    push_total(text, sheets)
}

/// Appends the lines of each part.
fn push_parts(text: &mut Vec<u8>, parts: &[PartSheet]) -> Result<(), NoMemory>
    ensures { OnOk result (text.new.items ≡ text.old.items ++ flat_map part_lines parts.now) }
{
    for sheet in parts {
        push_part(text, sheet)?;
    }
    Ok(())
}

/// Appends the line of each unit.
fn push_units(text: &mut Vec<u8>, units: &[NumberedUnit]) -> Result<(), NoMemory>
    requires { All FitsUnit units.now }
    ensures { OnOk result (text.new.items ≡ text.old.items ++ flat_map unit_line units.now) }
{
    for unit in units {
        push_unit(text, unit)?;
    }
    Ok(())
}
