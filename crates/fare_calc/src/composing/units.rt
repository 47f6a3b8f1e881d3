//! The plus-ups of a line, one for each unit whose price is above the sum of its amounts.

ghost use Rattle.std.specs.Prelude.{◌≡◌, ◌≤◌, true, IfSome, length, filter_map};
ghost use Rattle.std.specs.List.{list_all};
ghost use Rattle.fare_line.specs.Line.{is_plus};
ghost use Rattle.fare_calc.specs.LineOf.{plus_up_of};
ghost use Rattle.fare_calc.specs.UnitSheets.{FitsUnit, unit_sheets};

use crate::keeping::keep;
use crate::numbered_unit::NumberedUnit;
use crate::sheets::Sheets;
use arrayvec::ArrayVec;
use fare_codes::MOST_SECTORS;
use fare_line::PlusUp;

/// The plus-up of a unit.
fn plus_up_of(unit: &NumberedUnit) -> Option<PlusUp>
    requires { FitsUnit unit.now }
    ensures value { result ≡ plus_up_of unit.now }
    ensures form { IfSome result (λ plus. is_plus plus ≡ true) }
{
    let sheet = &unit.sheet;
    if sheet.sum < sheet.price {
        Some(PlusUp {
            unit: unit.number,
            amount: sheet.price - sheet.sum,
        })
    } else {
        None
    }
}

/// The plus-ups of the units of a lawful construction.
pub(crate) fn plus_ups(sheets: &Sheets<'_>) -> ArrayVec<PlusUp, MOST_SECTORS>
    ensures plus { result.items
        ≡ filter_map plus_up_of (unit_sheets sheets.now.edition sheets.now.trip sheets.now.parts) }
    ensures form { list_all is_plus result.items ≡ true }
    ensures few { length result.items ≤ MOST_SECTORS }
{
    let mut plus = ArrayVec::new();
    for unit in sheets.units() {
        keep(&mut plus, plus_up_of(unit));
    }
    plus
}
