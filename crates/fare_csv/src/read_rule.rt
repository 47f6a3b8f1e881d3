//! RULE records.

ghost use Rattle.std.specs.Prelude.{◌≡◌};
ghost use Rattle.fare_ports.specs.Memory.{Gives};
ghost use Rattle.fare_csv.specs.RecordText.{read_excess, rule_of};

use crate::field_list::FieldList;
use crate::name_list::read_names;
use crate::text_fault::TextFault;
use fare_codes::{RuleId, read_number};
use fare_tariff::{MOST_DAYS, MOST_STOPS, MOST_TRANSFERS, RuleRec};
use std::alloc::Global;

/// Whether a surcharge is allowed.
#[tactic(auto, unfolding(crate::specs::RecordText::read_excess))]
fn read_excess(bytes: &[u8]) -> Option<bool>
    ensures { result ≡ read_excess bytes.now }
{
    match bytes {
        b"Y" => Some(true),
        b"N" => Some(false),
        _ => None,
    }
}

/// A RULE record.
#[tactic(auto, unfolding(crate::specs::RecordText::rule_of))]
pub(crate) fn read_rule(alloc: Global, row: &FieldList, number: u32) -> Result<RuleRec, TextFault>
    ensures { Gives TextFault.Memory (λ rule. rule) result (rule_of number row.now) }
{
    row.counted(number, 10)?;
    let id = RuleId::read(row.field(1)).ok_or(TextFault::BadRecord(number, 2))?;
    let stops = read_number(row.field(2), MOST_STOPS).ok_or(TextFault::BadRecord(number, 3))?;
    let transfers = read_number(row.field(3), MOST_TRANSFERS).ok_or(TextFault::BadRecord(
        number, 4,
    ))?;
    let advance = read_number(row.field(4), MOST_DAYS).ok_or(TextFault::BadRecord(number, 5))?;
    let min_stay = read_number(row.field(5), MOST_DAYS).ok_or(TextFault::BadRecord(number, 6))?;
    let max_stay = read_number(row.field(6), MOST_DAYS).ok_or(TextFault::BadRecord(number, 7))?;
    let excess = read_excess(row.field(7)).ok_or(TextFault::BadRecord(number, 8))?;
    let units = read_names(alloc, row.field(8))?.ok_or(TextFault::BadRecord(number, 9))?;
    let ends = read_names(alloc, row.field(9))?.ok_or(TextFault::BadRecord(number, 10))?;
    Ok(RuleRec {
        id,
        stops,
        transfers,
        advance,
        min_stay,
        max_stay,
        excess,
        units,
        ends,
    })
}
