//! A lawful construction, from its sheets.

ghost use Rattle.std.specs.Prelude.{◌≡◌, ◌++◌, ◌≤◌, All, IfOk, OnOk};
ghost use Rattle.std.specs.List.{flat_map};
ghost use Rattle.fare_tariff.specs.Record.{IsCurrency};
ghost use Rattle.fare_calc.specs.LineOf.{line_of};
ghost use Rattle.fare_calc.specs.UnitSheets.{FitsUnit};
ghost use Rattle.fare_calc.specs.Worksheet.{local_text};
ghost use Rattle.fare_line.specs.LineText.{line_text};
ghost use Rattle.fare_rules.specs.UnitPrice.{price};
ghost use Rattle.fare_calc.specs.PartSheets.{home_currency};
ghost use Rattle.fare_json.specs.Spelled.{after_comma, amount_json, array_json, construction_front_json};
ghost use Rattle.fare_json.specs.Spelled.{construction_json};
ghost use Rattle.fare_json.specs.Spelled.{construction_rest_json, local_json, part_json};
ghost use Rattle.fare_json.specs.Spelled.{rate_json, string_json, unit_json};

use crate::part::push_part;
use crate::unit::push_unit;
use crate::writing::{push_money, push_named, push_string};
use fare_calc::{NumberedUnit, PartSheet, Sheets, line_by, print_line};
use fare_codes::{MOST_DECIMALS, rate_text};
use fare_ports::NoMemory;
use fare_tariff::CurRec;
use fare_text::{push_decimal, push_whole};
use std::alloc::Global;

/// Appends a lawful construction.
pub(crate) fn push_construction(
    text: &mut Vec<u8>,
    alloc: Global,
    sheets: &Sheets<'_>,
) -> Result<(), NoMemory>
    ensures { OnOk result (text.new.items ≡ text.old.items
        ++ construction_json sheets.now.edition sheets.now.trip sheets.now.parts) }
{
    push_construction_front(text, alloc, sheets)?;
    push_construction_rest(text, sheets)
}

/// Appends what a lawful construction has before its rate of exchange.
#[tactic(auto, unfolding(crate::specs::Spelled::construction_front_json))]
fn push_construction_front(
    text: &mut Vec<u8>,
    alloc: Global,
    sheets: &Sheets<'_>,
) -> Result<(), NoMemory>
    ensures { OnOk result (text.new.items ≡ text.old.items
        ++ construction_front_json sheets.now.edition sheets.now.trip sheets.now.parts) }
{
    text.extend_from_slice(b"{\"line\":")?;
    push_line(text, alloc, sheets)?;
    text.extend_from_slice(b",\"local\":")?;
    push_local(text, alloc, sheets)?;
    text.extend_from_slice(b",\"parts\":")?;
    push_parts(text, sheets.parts())
}

/// Appends what a lawful construction has from its rate of exchange on.
#[tactic(auto, unfolding(crate::specs::Spelled::construction_rest_json))]
fn push_construction_rest(text: &mut Vec<u8>, sheets: &Sheets<'_>) -> Result<(), NoMemory>
    ensures { OnOk result (text.new.items ≡ text.old.items
        ++ construction_rest_json sheets.now.edition sheets.now.trip sheets.now.parts) }
{
    text.extend_from_slice(b",\"roe\":")?;
    push_rate(text, sheets)?;
    push_money(text, b",\"total\":", sheets.price())?;
    text.extend_from_slice(b",\"units\":")?;
    push_units(text, sheets.units())?;
    Ok(text.push(b'}')?)
}

/// Appends the calculation line.
pub(crate) fn push_line(
    text: &mut Vec<u8>,
    alloc: Global,
    sheets: &Sheets<'_>,
) -> Result<(), NoMemory>
    ensures { OnOk result (text.new.items ≡ text.old.items
        ++ string_json (line_text (line_of sheets.now.edition sheets.now.trip sheets.now.parts))) }
{
    let line = line_by(sheets);
    push_string(text, print_line(alloc, &line)?.as_slice())
}

/// Appends the price in the currency of the country where the trip begins.
fn push_local(text: &mut Vec<u8>, alloc: Global, sheets: &Sheets<'_>) -> Result<(), NoMemory>
    ensures { OnOk result (text.new.items ≡ text.old.items
        ++ local_json (price sheets.now.edition sheets.now.trip sheets.now.parts)
        (home_currency sheets.now.edition sheets.now.trip)) }
{
    let _total = sheets.price();
    push_amount(text, alloc, sheets.local_amount(), sheets.currency())
}

/// Appends an amount of a currency, counted in the last of its decimals.
#[tactic(auto, unfolding(crate::specs::Spelled::amount_json))]
fn push_amount(
    text: &mut Vec<u8>,
    alloc: Global,
    amount: u128,
    currency: &CurRec,
) -> Result<(), NoMemory>
    requires { IsCurrency currency.now.roe currency.now.decimals currency.now.unit }
    ensures { OnOk result (text.new.items ≡ text.old.items ++ amount_json amount currency.now) }
{
    text.extend_from_slice(b"{\"amount\":")?;
    push_string(
        text,
        local_text(alloc, currency.decimals, amount)?.as_slice(),
    )?;
    push_named(text, b",\"currency\":", &currency.currency.text())?;
    Ok(text.push(b'}')?)
}

/// The text of an amount with so many decimals; without decimals it has no point.
fn local_text(alloc: Global, decimals: u8, amount: u128) -> Result<Vec<u8>, NoMemory>
    requires { decimals ≤ MOST_DECIMALS }
    ensures { IfOk result (λ text. text.items ≡ local_text decimals amount) }
{
    let mut text = Vec::new(alloc);
    match decimals {
        0 => push_whole(&mut text, amount)?,
        places => push_decimal(&mut text, amount, places)?,
    }
    Ok(text)
}

/// Appends the rate of exchange of that currency.
fn push_rate(text: &mut Vec<u8>, sheets: &Sheets<'_>) -> Result<(), NoMemory>
    ensures { OnOk result (text.new.items ≡ text.old.items
        ++ rate_json (home_currency sheets.now.edition sheets.now.trip)) }
{
    let rate = rate_text(sheets.currency().roe);
    push_string(text, rate.as_str().as_bytes())
}

/// Appends the list of the parts.
fn push_parts(text: &mut Vec<u8>, parts: &[PartSheet]) -> Result<(), NoMemory>
    ensures { OnOk result (text.new.items ≡ text.old.items ++ array_json part_json parts.now) }
{
    text.push(b'[')?;
    if let Some((first, rest)) = parts.split_first() {
        push_part(text, first)?;
        push_more_parts(text, rest)?;
    }
    Ok(text.push(b']')?)
}

/// Appends parts, each behind a comma.
fn push_more_parts(text: &mut Vec<u8>, parts: &[PartSheet]) -> Result<(), NoMemory>
    ensures { OnOk result (text.new.items ≡ text.old.items ++ flat_map (after_comma part_json) parts.now) }
{
    for sheet in parts {
        text.push(b',')?;
        push_part(text, sheet)?;
    }
    Ok(())
}

/// Appends the list of the units.
fn push_units(text: &mut Vec<u8>, units: &[NumberedUnit]) -> Result<(), NoMemory>
    requires { All FitsUnit units.now }
    ensures { OnOk result (text.new.items ≡ text.old.items ++ array_json unit_json units.now) }
{
    text.push(b'[')?;
    if let Some((first, rest)) = units.split_first() {
        push_unit(text, first)?;
        push_more_units(text, rest)?;
    }
    Ok(text.push(b']')?)
}

/// Appends units, each behind a comma.
fn push_more_units(text: &mut Vec<u8>, units: &[NumberedUnit]) -> Result<(), NoMemory>
    requires { All FitsUnit units.now }
    ensures { OnOk result (text.new.items ≡ text.old.items ++ flat_map (after_comma unit_json) units.now) }
{
    for unit in units {
        text.push(b',')?;
        push_unit(text, unit)?;
    }
    Ok(())
}
