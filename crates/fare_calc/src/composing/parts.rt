//! The parts of a line, each with its letter, its pair and its amount.

ghost use Rattle.std.specs.Prelude.{◌≡◌, true, None, Some, length, map, option_map};
ghost use Rattle.fare_line.specs.Line.{are_parts, is_led, is_priced};
ghost use Rattle.fare_calc.specs.LineOf.{FitsLine, cities_of, flown_from, letter_of, line_part};
ghost use Rattle.fare_calc.specs.PartSheets.{part_sheets};

use crate::composing::forms::{carrier_has_form, gap_has_form, pair_has_form, rule_has_form};
use crate::keeping::keep;
use crate::part_sheet::PartSheet;
use crate::sheets::Sheets;
use arrayvec::ArrayVec;
use fare_codes::{City, MOST_SECTORS, Nuc};
use fare_line::{Letter, LinePart};
use fare_mileage::Mileage;

/// The letter of a part.
fn letter_of(mileage: Mileage) -> Letter
    ensures { result ≡ letter_of mileage }
{
    match mileage {
        Mileage::Within(_) => Letter::Mileage(0),
        Mileage::Excess(step, _) => Letter::Mileage(step),
        Mileage::Direct | Mileage::NoTpm(_) | Mileage::NoMpm | Mileage::Over(_) => Letter::Bare,
    }
}

/// The two cities of a higher intermediate point.
fn cities_of(higher: Option<(City, City, Nuc)>) -> Option<(City, City)>
    ensures { result ≡ option_map cities_of higher }
{
    match higher {
        None => None,
        Some((first, second, _)) => Some((first, second)),
    }
}

/// The part of a line for the sheet of a part.
fn line_part(sheet: &PartSheet) -> LinePart
    requires { FitsLine sheet.now }
    ensures value { result ≡ line_part sheet.now }
    ensures form { is_priced result ≡ true }
{
    gap_has_form(sheet.gap);
    pair_has_form(letter_of(sheet.mileage), cities_of(sheet.higher));
    carrier_has_form(sheet.fare.carrier);
    rule_has_form(sheet.fare.rule);
    let gap = sheet.gap;
    let class = sheet.fare.class;
    let kind = sheet.fare.kind;
    let rule = sheet.fare.rule;
    LinePart {
        end: sheet.end,
        letter: letter_of(sheet.mileage),
        pair: cities_of(sheet.higher),
        amount: sheet.amount.hundredths(),
        carrier: sheet.fare.carrier,
        class,
        kind,
        rule,
        unit: sheet.unit,
        gap,
    }
}

/// The parts of the line of a lawful construction.
pub(crate) fn line_parts(sheets: &Sheets<'_>) -> ArrayVec<LinePart, MOST_SECTORS>
    ensures parts { result.items
        ≡ map line_part (part_sheets sheets.now.edition sheets.now.trip sheets.now.parts) }
    ensures form { are_parts 0 (length (flown_from sheets.now.trip 1)) result.items ≡ true }
    ensures led { is_led result.items ≡ true }
{
    let _sectors = sheets.trip().count();
    let _lawful = sheets.price();
    // A part holds a rule and cities within options; the check learns from these calls where their types stand.
    rule_has_form(None);
    gap_has_form(None);
    let mut parts = ArrayVec::new();
    for sheet in sheets.parts() {
        keep(&mut parts, Some(line_part(sheet)));
    }
    parts
}
