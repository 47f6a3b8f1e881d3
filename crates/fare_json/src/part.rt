//! A part of a construction.

ghost use Rattle.std.specs.Prelude.{◌≡◌, ◌++◌, OnOk};
ghost use Rattle.fare_json.specs.Spelled.{fare_front_json, fare_json, fare_rest_json, higher_json, measured_json};
ghost use Rattle.fare_json.specs.Spelled.{miles_json};
ghost use Rattle.fare_json.specs.Spelled.{pair_json, part_front_json, part_json, part_rest_json, rule_json};

use crate::sectors::push_sectors;
use crate::writing::{push_flag, push_money, push_named, push_string};
use fare_calc::PartSheet;
use fare_codes::{Cabin, Carrier, City, Kind, Nuc, RuleId};
use fare_mileage::{Mileage, Miles};
use fare_ports::NoMemory;
use fare_tariff::FareRec;
use fare_text::push_labelled;

/// Appends a part.
pub(crate) fn push_part(text: &mut Vec<u8>, sheet: &PartSheet) -> Result<(), NoMemory>
    ensures { OnOk result (text.new.items ≡ text.old.items ++ part_json sheet.now) }
{
    push_part_front(text, sheet)?;
    push_part_rest(text, sheet)
}

/// Appends what a part has before its higher intermediate point.
#[tactic(auto, unfolding(crate::specs::Spelled::part_front_json))]
fn push_part_front(text: &mut Vec<u8>, sheet: &PartSheet) -> Result<(), NoMemory>
    ensures { OnOk result (text.new.items ≡ text.old.items ++ part_front_json sheet.now) }
{
    push_named(text, b"{\"amount\":", &sheet.amount.text())?;
    text.extend_from_slice(b",\"back\":")?;
    push_flag(text, sheet.back)?;
    text.extend_from_slice(b",\"fare\":")?;
    push_fare(text, sheet.number, &sheet.fare)?;
    push_named(text, b",\"filed\":", &sheet.fare.amount.text())?;
    push_named(text, b",\"from\":", &sheet.from.text())
}

/// Appends what a part has from its higher intermediate point on.
#[tactic(auto, unfolding(crate::specs::Spelled::part_rest_json))]
fn push_part_rest(text: &mut Vec<u8>, sheet: &PartSheet) -> Result<(), NoMemory>
    ensures { OnOk result (text.new.items ≡ text.old.items ++ part_rest_json sheet.now) }
{
    text.extend_from_slice(b",\"hip\":")?;
    push_higher(text, sheet.higher)?;
    text.extend_from_slice(b",\"miles\":")?;
    push_mileage(text, sheet.mileage)?;
    text.extend_from_slice(b",\"sectors\":")?;
    push_sectors(text, sheet.start, sheet.end)?;
    push_named(text, b",\"to\":", &sheet.to.text())?;
    push_labelled(text, b",\"unit\":", u32::from(sheet.unit))?;
    Ok(text.push(b'}')?)
}

/// Appends a fare with the number of its record.
fn push_fare(text: &mut Vec<u8>, number: u32, fare: &FareRec) -> Result<(), NoMemory>
    ensures { OnOk result (text.new.items ≡ text.old.items ++ fare_json number fare.now) }
{
    push_fare_front(text, fare.carrier, fare.class, fare.kind)?;
    push_fare_rest(text, number, fare.rule)
}

/// Appends what a fare has before its record.
#[tactic(auto, unfolding(crate::specs::Spelled::fare_front_json))]
fn push_fare_front(
    text: &mut Vec<u8>,
    carrier: Carrier,
    class: Cabin,
    kind: Kind,
) -> Result<(), NoMemory>
    ensures { OnOk result (text.new.items ≡ text.old.items ++ fare_front_json carrier class kind) }
{
    push_named(text, b"{\"carrier\":", &carrier.text())?;
    push_named(text, b",\"class\":", &class.text())?;
    push_named(text, b",\"kind\":", &kind.text())?;
    Ok(())
}

/// Appends what a fare has from its record on.
#[tactic(auto, unfolding(crate::specs::Spelled::fare_rest_json))]
fn push_fare_rest(text: &mut Vec<u8>, number: u32, rule: Option<RuleId>) -> Result<(), NoMemory>
    ensures { OnOk result (text.new.items ≡ text.old.items ++ fare_rest_json number rule) }
{
    push_labelled(text, b",\"record\":", number)?;
    text.extend_from_slice(b",\"rule\":")?;
    push_rule(text, rule)?;
    Ok(text.push(b'}')?)
}

/// Appends a rule; the free rule is null.
fn push_rule(text: &mut Vec<u8>, rule: Option<RuleId>) -> Result<(), NoMemory>
    ensures { OnOk result (text.new.items ≡ text.old.items ++ rule_json rule) }
{
    match rule {
        None => Ok(text.extend_from_slice(b"null")?),
        Some(id) => push_string(text, id.text().as_str().as_bytes()),
    }
}

/// Appends a higher intermediate point, or null.
fn push_higher(text: &mut Vec<u8>, higher: Option<(City, City, Nuc)>) -> Result<(), NoMemory>
    ensures { OnOk result (text.new.items ≡ text.old.items ++ higher_json higher) }
{
    match higher {
        None => Ok(text.extend_from_slice(b"null")?),
        Some((from, to, base)) => push_pair(text, from, to, base),
    }
}

/// Appends a pair in fare direction with its base.
#[tactic(auto, unfolding(crate::specs::Spelled::pair_json))]
fn push_pair(text: &mut Vec<u8>, from: City, to: City, base: Nuc) -> Result<(), NoMemory>
    ensures { OnOk result (text.new.items ≡ text.old.items ++ pair_json from to base) }
{
    push_named(text, b"{\"amount\":", &base.text())?;
    push_named(text, b",\"from\":", &from.text())?;
    push_named(text, b",\"to\":", &to.text())?;
    Ok(text.push(b'}')?)
}

/// Appends a mileage.
fn push_mileage(text: &mut Vec<u8>, mileage: Mileage) -> Result<(), NoMemory>
    ensures { OnOk result (text.new.items ≡ text.old.items ++ miles_json mileage) }
{
    match mileage {
        Mileage::Direct => Ok(text.extend_from_slice(b"null")?),
        Mileage::Within(miles) => push_measured(text, 0, &miles),
        Mileage::Excess(step, miles) => push_measured(text, step, &miles),
        Mileage::NoTpm(_) | Mileage::NoMpm | Mileage::Over(_) => Ok(text.extend_from_slice(
            b"\"\"",
        )?),
    }
}

/// Appends miles with their surcharge.
#[tactic(auto, unfolding(crate::specs::Spelled::measured_json))]
fn push_measured(text: &mut Vec<u8>, surcharge: u32, miles: &Miles) -> Result<(), NoMemory>
    ensures { OnOk result (text.new.items ≡ text.old.items ++ measured_json surcharge miles.now) }
{
    push_labelled(text, b"{\"ema\":", miles.allowance)?;
    push_labelled(text, b",\"mpm\":", miles.mpm)?;
    push_labelled(text, b",\"net\":", miles.net)?;
    push_labelled(text, b",\"surcharge\":", surcharge)?;
    push_labelled(text, b",\"tpm\":", miles.sum)?;
    Ok(text.push(b'}')?)
}
