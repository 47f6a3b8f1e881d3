//! The sentences that tell what is wrong with a record. Each function appends to a text, which after want of memory may
//! hold a part of what was to be added.

ghost use Rattle.std.specs.Prelude.{◌≡◌, ◌++◌, OnOk, length};
ghost use Rattle.fare_check.specs.Sentences.{bad_sentence, count_sentence, field_sentence, form_sentence, if_unknown};
ghost use Rattle.fare_check.specs.Sentences.{kind_sentence, letters_of, sentence, unknown_city, via_field};
ghost use Rattle.fare_codes.specs.Codes.{read_city};

use crate::field_name::FieldName;
use crate::grounds::Grounds;
use crate::shape::{Shape, shape_of};
use fare_codes::City;
use fare_csv::{Row, TextFault};
use fare_ports::NoMemory;
use fare_tariff::{CheckKind, Filed, is_unknown_city};
use fare_text::{push_code, push_labelled, push_number, push_whole};

/// Appends that a record has another number of fields than its kind.
fn push_count(text: &mut Vec<u8>, count: usize, shape: Option<Shape>) -> Result<(), NoMemory>
    ensures { OnOk result (text.new.items ≡ text.old.items ++ count_sentence count shape) }
{
    let Some(shape) = shape else {
        return Ok(());
    };
    text.extend_from_slice(b"the number of fields is ")?;
    push_whole(text, count as u128)?;
    text.extend_from_slice(b", and for ")?;
    text.extend_from_slice(shape.words().as_bytes())?;
    text.extend_from_slice(b" it is ")?;
    Ok(text.extend_from_slice(shape.right().as_bytes())?)
}

/// Appends that the field of a number isn't in its form.
fn push_form(text: &mut Vec<u8>, number: u32, name: Option<FieldName>) -> Result<(), NoMemory>
    ensures { OnOk result (text.new.items ≡ text.old.items ++ form_sentence number name) }
{
    let Some(name) = name else {
        return Ok(());
    };
    push_labelled(text, b"field ", number)?;
    text.extend_from_slice(b" (")?;
    text.extend_from_slice(name.name().as_bytes())?;
    text.extend_from_slice(b") has to be ")?;
    Ok(text.extend_from_slice(name.form().as_bytes())?)
}

/// Appends that the field of a number of a shape isn't in its form.
fn push_field(text: &mut Vec<u8>, number: u32, shape: Option<Shape>) -> Result<(), NoMemory>
    ensures { OnOk result (text.new.items ≡ text.old.items ++ field_sentence number shape) }
{
    match shape {
        None => Ok(()),
        Some(shape) => push_form(text, number, shape.field_at(number)),
    }
}

/// Appends that a record isn't in its form.
#[tactic(auto, unfolding(crate::specs::Sentences::bad_sentence))]
fn push_bad(text: &mut Vec<u8>, grounds: &Grounds, row: &Row, number: u32) -> Result<(), NoMemory>
    ensures { OnOk result (text.new.items ≡ text.old.items ++ bad_sentence grounds.now.version row.now number) }
{
    let shape = shape_of(grounds.version, row);
    if number == 0 {
        push_count(text, row.len(), shape)
    } else {
        push_field(text, number, shape)
    }
}

/// The field of a row that may name a third city; empty where none may.
fn via_field(row: &Row) -> &[u8]
    ensures { result.now ≡ via_field row.now }
{
    match row.field(0) {
        b"EMA" => row.field(4),
        _ => &[],
    }
}

/// The city that a field spells, where it has no CITY record.
fn if_unknown(filed: &Filed, bytes: &[u8]) -> Option<City>
    ensures { result ≡ if_unknown filed.now (read_city bytes.now) }
{
    match City::read(bytes) {
        None => None,
        Some(city) => {
            if is_unknown_city(filed, city) {
                Some(city)
            } else {
                None
            }
        }
    }
}

/// The first of the cities that a row names which has no CITY record.
#[tactic(auto, unfolding(crate::specs::Sentences::unknown_city))]
fn unknown_city(filed: &Filed, row: &Row) -> Option<City>
    ensures { result ≡ unknown_city filed.now row.now }
{
    if let Some(city) = if_unknown(filed, row.field(1)) {
        return Some(city);
    }
    if let Some(city) = if_unknown(filed, row.field(2)) {
        return Some(city);
    }
    if_unknown(filed, via_field(row))
}

/// Appends a city's letters, if there is one.
fn push_city(text: &mut Vec<u8>, city: Option<City>) -> Result<(), NoMemory>
    ensures { OnOk result (text.new.items ≡ text.old.items ++ letters_of city) }
{
    match city {
        None => Ok(()),
        Some(city) => push_code(text, &city.text()),
    }
}

/// Appends bytes between two labels.
fn push_between(
    text: &mut Vec<u8>,
    before: &[u8],
    bytes: &[u8],
    after: &[u8],
) -> Result<(), NoMemory>
    ensures { OnOk result (text.new.items ≡ text.old.items ++ before.now ++ bytes.now ++ after.now) }
{
    text.extend_from_slice(before)?;
    text.extend_from_slice(bytes)?;
    Ok(text.extend_from_slice(after)?)
}

/// Appends what is wrong with a record among the others.
#[tactic(auto, unfolding(crate::specs::Sentences::kind_sentence))]
fn push_kind(text: &mut Vec<u8>, filed: &Filed, row: &Row, kind: CheckKind) -> Result<(), NoMemory>
    ensures { OnOk result (text.new.items ≡ text.old.items ++ kind_sentence filed.now row.now kind) }
{
    match kind {
        CheckKind::Duplicate(first) => push_labelled(text, b"its key is that of record ", first),
        CheckKind::UnknownCity => {
            text.extend_from_slice(b"the city ")?;
            push_city(text, unknown_city(filed, row))?;
            Ok(text.extend_from_slice(b" has no CITY record")?)
        }
        CheckKind::UnknownRule => {
            push_between(text, b"the rule ", row.field(7), b" has no RULE record")
        }
        CheckKind::UnknownCurrency => {
            push_between(text, b"the country ", row.field(2), b" has no CUR record")
        }
        CheckKind::TooManyFares => Ok(text.extend_from_slice(
            b"64 earlier fares have its from, to and ind, and more aren't taken",
        )?),
        CheckKind::SamePoint => Ok(text.extend_from_slice(b"its two cities are equal")?),
        CheckKind::ZeroMileage => Ok(text.extend_from_slice(b"its miles are 0")?),
        CheckKind::OutOfLimit => Ok(text.extend_from_slice(
            b"400000 records stand before it, and more aren't taken",
        )?),
        CheckKind::Overlap(first) => {
            push_labelled(text, b"its season shares a day with that of record ", first)?;
            Ok(text.extend_from_slice(b", whose key is the same but for the season")?)
        }
    }
}

/// Appends what is wrong with the record of a row; nothing for want of memory.
#[tactic(auto, unfolding(crate::specs::Sentences::sentence))]
pub(crate) fn push_sentence(
    text: &mut Vec<u8>,
    grounds: &Grounds,
    row: &Row,
    fault: TextFault,
) -> Result<(), NoMemory>
    ensures { OnOk result (text.new.items
        ≡ text.old.items ++ sentence grounds.now.version grounds.now.filed.now row.now fault) }
{
    match fault {
        TextFault::Memory => Ok(()),
        TextFault::NoHeader => Ok(text.extend_from_slice(b"the first record isn't HEAD")?),
        TextFault::UnknownRecord(_) => Ok(text.extend_from_slice(
            b"field 1 is none of CUR, CITY, RULE, FARE, MPM, TPM, EMA and END",
        )?),
        TextFault::BadRecord(_, field) => push_bad(text, grounds, row, field),
        TextFault::AfterEnd(_) => Ok(text.extend_from_slice(b"the record stands behind END")?),
        TextFault::NoEnd(_) => Ok(text.extend_from_slice(b"the text has no END record")?),
        TextFault::Check(_, kind) => push_kind(text, grounds.filed, row, kind),
    }
}
