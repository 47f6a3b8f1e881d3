//! The lines of a part.

ghost use Rattle.std.specs.Prelude.{◌≡◌, ◌++◌, OnOk, codes};
ghost use Rattle.fare_codes.specs.Numbers.{nuc_text};
ghost use Rattle.fare_line.specs.LineText.{letter_text};
ghost use Rattle.fare_calc.specs.Worksheet.{amount_line, direction_text, filed_line, higher_line, measured_line};
ghost use Rattle.fare_calc.specs.Worksheet.{miles_line, miles_text, part_line, part_lines, way_text};

use crate::part_sheet::PartSheet;
use fare_codes::{City, Nuc};
use fare_line::{Letter, push_letter, push_tag};
use fare_mileage::{Mileage, Miles};
use fare_ports::NoMemory;
use fare_tariff::FareRec;
use fare_text::{push_code, push_labelled};

/// Appends the five lines of a part.
#[tactic(auto, unfolding(crate::specs::Worksheet::part_lines))]
pub(crate) fn push_part(text: &mut Vec<u8>, sheet: &PartSheet) -> Result<(), NoMemory>
    ensures { OnOk result (text.new.items ≡ text.old.items ++ part_lines sheet.now) }
{
    push_part_line(text, sheet)?;
    push_fare_line(text, sheet.number, &sheet.fare)?;
    push_miles_line(text, sheet.mileage)?;
    push_higher_line(text, sheet.higher)?;
    push_amount_line(text, sheet.amount)
}

/// Appends the line of a part.
fn push_part_line(text: &mut Vec<u8>, sheet: &PartSheet) -> Result<(), NoMemory>
    ensures { OnOk result (text.new.items ≡ text.old.items ++ part_line sheet.now) }
{
    push_labelled(text, b"PART ", sheet.place)?;
    text.push(b' ')?;
    push_way(text, sheet.from, sheet.to)?;
    push_labelled(text, b" UNIT ", u32::from(sheet.unit))?;
    text.push(b' ')?;
    push_direction(text, sheet.back)?;
    Ok(text.push(b'\n')?)
}

/// Appends two cities as from and to.
fn push_way(text: &mut Vec<u8>, from: City, to: City) -> Result<(), NoMemory>
    ensures { OnOk result (text.new.items ≡ text.old.items ++ way_text from to) }
{
    push_code(text, &from.text())?;
    text.push(b'-')?;
    push_code(text, &to.text())
}

/// Appends whether a part goes out or back.
fn push_direction(text: &mut Vec<u8>, back: bool) -> Result<(), NoMemory>
    ensures { OnOk result (text.new.items ≡ text.old.items ++ direction_text back) }
{
    if back {
        Ok(text.extend_from_slice(b"BACK")?)
    } else {
        Ok(text.extend_from_slice(b"OUT")?)
    }
}

/// Appends the line of a fare.
fn push_fare_line(text: &mut Vec<u8>, number: u32, fare: &FareRec) -> Result<(), NoMemory>
    ensures { OnOk result (text.new.items ≡ text.old.items ++ filed_line number fare.now) }
{
    push_labelled(text, b"FARE ", number)?;
    text.push(b' ')?;
    push_tag(text, fare.carrier, fare.class, fare.kind, fare.rule)?;
    text.push(b' ')?;
    push_code(text, &fare.amount.text())?;
    Ok(text.push(b'\n')?)
}

/// Appends the line of a mileage.
fn push_miles_line(text: &mut Vec<u8>, mileage: Mileage) -> Result<(), NoMemory>
    ensures { OnOk result (text.new.items ≡ text.old.items ++ miles_line mileage) }
{
    match mileage {
        Mileage::Direct => Ok(text.extend_from_slice(b"MILES DIRECT\n")?),
        Mileage::Within(miles) => push_measured(text, miles, Letter::Mileage(0)),
        Mileage::Excess(step, miles) => push_measured(text, miles, Letter::Mileage(step)),
        Mileage::NoTpm(_) | Mileage::NoMpm | Mileage::Over(_) => Ok(()),
    }
}

/// Appends the line of miles with a letter.
fn push_measured(text: &mut Vec<u8>, miles: Miles, letter: Letter) -> Result<(), NoMemory>
    ensures { OnOk result (text.new.items ≡ text.old.items ++ measured_line miles (letter_text letter)) }
{
    push_miles(text, &miles)?;
    text.push(b' ')?;
    push_letter(text, letter)?;
    Ok(text.push(b'\n')?)
}

/// Appends miles, each number behind its label.
#[tactic(auto, unfolding(crate::specs::Worksheet::miles_text))]
fn push_miles(text: &mut Vec<u8>, miles: &Miles) -> Result<(), NoMemory>
    ensures { OnOk result (text.new.items ≡ text.old.items ++ miles_text miles.now) }
{
    push_labelled(text, b"MILES TPM ", miles.sum)?;
    push_labelled(text, b" EMA ", miles.allowance)?;
    push_labelled(text, b" NET ", miles.net)?;
    push_labelled(text, b" MPM ", miles.mpm)
}

/// Appends the line of a higher intermediate point.
fn push_higher_line(text: &mut Vec<u8>, higher: Option<(City, City, Nuc)>) -> Result<(), NoMemory>
    ensures { OnOk result (text.new.items ≡ text.old.items ++ higher_line higher) }
{
    match higher {
        None => Ok(text.extend_from_slice(b"HIP NONE\n")?),
        Some((from, to, base)) => push_pair(text, from, to, base),
    }
}

/// Appends the line of a pair in fare direction and its base.
fn push_pair(text: &mut Vec<u8>, from: City, to: City, base: Nuc) -> Result<(), NoMemory>
    ensures { OnOk result
        (text.new.items
        ≡ text.old.items ++ codes "HIP " ++ way_text from to ++ codes " " ++ nuc_text base ++ codes "\n") }
{
    text.extend_from_slice(b"HIP ")?;
    push_way(text, from, to)?;
    text.push(b' ')?;
    push_code(text, &base.text())?;
    Ok(text.push(b'\n')?)
}

/// Appends the line of a component amount.
fn push_amount_line(text: &mut Vec<u8>, amount: Nuc) -> Result<(), NoMemory>
    ensures { OnOk result (text.new.items ≡ text.old.items ++ amount_line amount) }
{
    text.extend_from_slice(b"AF ")?;
    push_code(text, &amount.text())?;
    Ok(text.push(b'\n')?)
}
