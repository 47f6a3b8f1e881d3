//! The text of a line, and of the letter and the tag that a worksheet shows too.

ghost use Rattle.std.specs.Prelude.{◌≡◌, ◌++◌, ◌≤◌, ◌<◌, ◌^◌, true, length, decimal, IfOk, OnOk};
ghost use Rattle.std.specs.List.{flat_map, list_all};
ghost use Rattle.fare_codes.specs.Numbers.{nuc_text};
ghost use Rattle.fare_line.specs.Line.{are_parts, gap_count, is_amount, is_line, is_plus, is_rate};
ghost use Rattle.fare_line.specs.LineText.{gap_text, letter_text, line_text, mark_text, pair_text, part_text};
ghost use Rattle.fare_line.specs.LineText.{parts_text, plus_text, price_text, rule_text, sector_text, spaced};
ghost use Rattle.fare_line.specs.LineText.{tag_text, totals_text};

use crate::line::Line;
use crate::line::part::{Letter, LinePart};
use crate::line::plus_up::PlusUp;
use crate::line::sector::LineSector;
use arrayvec::ArrayString;
use fare_codes::{Cabin, Carrier, City, Kind, RuleId, rate_text};
use fare_ports::NoMemory;
use fare_text::{push_code, push_hundredths, push_number};
use std::alloc::Global;

/// The text of a line, which `read_line` reads as that line. No other line has it.
#[tactic(auto, unfolding(crate::specs::LineText::line_text, crate::specs::Line::is_line))]
pub fn print_line(alloc: Global, line: &Line) -> Result<Vec<u8>, NoMemory>
    ensures text { IfOk result (λ text. text.items ≡ line_text line.now) }
    ensures form { is_line line.now ≡ true }
{
    let mut text = Vec::new(alloc);
    push_spaced(&mut text, &line.from.text())?;
    push_parts(&mut text, line.sectors.as_slice(), line.parts.as_slice())?;
    push_plus_ups(&mut text, line.plus.as_slice())?;
    push_totals(&mut text, line.total, line.roe)?;
    Ok(text)
}

/// Appends a text and a space.
fn push_spaced(text: &mut Vec<u8>, more: &ArrayString<16>) -> Result<(), NoMemory>
    ensures { OnOk result (text.new.items ≡ text.old.items ++ spaced more.now.bytes) }
{
    push_code(text, more)?;
    Ok(text.push(b' ')?)
}

/// Appends a sector.
fn push_sector(text: &mut Vec<u8>, sector: &LineSector) -> Result<(), NoMemory>
    ensures { OnOk result (text.new.items ≡ text.old.items ++ sector_text sector.now) }
{
    push_spaced(text, &sector.carrier.text())?;
    if sector.transfer {
        text.extend_from_slice(b"X/")?;
    }
    push_spaced(text, &sector.to.text())
}

/// Appends a letter: `M` with the surcharge before it where that isn't 0, or nothing.
pub fn push_letter(text: &mut Vec<u8>, letter: Letter) -> Result<(), NoMemory>
    ensures { OnOk result (text.new.items ≡ text.old.items ++ letter_text letter) }
{
    match letter {
        Letter::Bare => Ok(()),
        Letter::Mileage(0) => Ok(text.push(b'M')?),
        Letter::Mileage(surcharge) => {
            push_number(text, surcharge)?;
            Ok(text.push(b'M')?)
        }
    }
}

/// Appends the pair of a mark.
fn push_pair(text: &mut Vec<u8>, pair: Option<(City, City)>) -> Result<(), NoMemory>
    ensures { OnOk result (text.new.items ≡ text.old.items ++ pair_text pair) }
{
    match pair {
        None => Ok(()),
        Some((first, second)) => {
            push_code(text, &first.text())?;
            push_code(text, &second.text())
        }
    }
}

/// Appends a unit and a space.
fn push_unit(text: &mut Vec<u8>, unit: u8) -> Result<(), NoMemory>
    ensures { OnOk result (text.new.items ≡ text.old.items ++ spaced (decimal unit)) }
{
    push_number(text, u32::from(unit))?;
    Ok(text.push(b' ')?)
}

/// Appends the mark of a part.
fn push_mark(text: &mut Vec<u8>, part: &LinePart) -> Result<(), NoMemory>
    requires { is_amount part.now.amount ≡ true }
    ensures { OnOk result (text.new.items ≡ text.old.items ++ mark_text part.now.letter part.now.pair part.now.amount) }
{
    push_letter(text, part.letter)?;
    push_pair(text, part.pair)?;
    push_hundredths(text, part.amount)
}

/// Appends the tag of a fare: its carrier, its class, its kind and its rule, where that isn't the free rule.
pub fn push_tag(
    text: &mut Vec<u8>,
    carrier: Carrier,
    class: Cabin,
    kind: Kind,
    rule: Option<RuleId>,
) -> Result<(), NoMemory>
    ensures { OnOk result (text.new.items ≡ text.old.items ++ tag_text carrier class kind rule) }
{
    push_code(text, &carrier.text())?;
    push_code(text, &class.text())?;
    push_code(text, &kind.text())?;
    push_rule(text, rule)
}

/// Appends the rule of a tag.
fn push_rule(text: &mut Vec<u8>, rule: Option<RuleId>) -> Result<(), NoMemory>
    ensures { OnOk result (text.new.items ≡ text.old.items ++ rule_text rule) }
{
    match rule {
        None => Ok(()),
        Some(id) => push_code(text, &id.text()),
    }
}

/// Appends what stands behind the sectors of a part.
fn push_price(text: &mut Vec<u8>, part: &LinePart) -> Result<(), NoMemory>
    requires { is_amount part.now.amount ≡ true }
    ensures { OnOk result (text.new.items ≡ text.old.items ++ price_text part.now) }
{
    push_mark(text, part)?;
    text.push(b' ')?;
    push_tag(text, part.carrier, part.class, part.kind, part.rule)?;
    text.push(b'/')?;
    push_unit(text, part.unit)
}

/// Appends a gap.
fn push_gap(text: &mut Vec<u8>, gap: Option<City>) -> Result<(), NoMemory>
    ensures { OnOk result (text.new.items ≡ text.old.items ++ gap_text gap) }
{
    match gap {
        None => Ok(()),
        Some(city) => {
            text.extend_from_slice(b"// ")?;
            push_spaced(text, &city.text())
        }
    }
}

/// Appends flown sectors.
fn push_sectors(text: &mut Vec<u8>, sectors: &[LineSector]) -> Result<(), NoMemory>
    ensures { OnOk result (text.new.items ≡ text.old.items ++ flat_map sector_text sectors.now) }
{
    for sector in sectors {
        push_sector(text, sector)?;
    }
    Ok(())
}

/// Appends a part with its flown sectors.
fn push_part(text: &mut Vec<u8>, sectors: &[LineSector], part: &LinePart) -> Result<(), NoMemory>
    requires { is_amount part.now.amount ≡ true }
    ensures { OnOk result (text.new.items ≡ text.old.items ++ part_text sectors.now part.now) }
{
    push_gap(text, part.gap)?;
    push_sectors(text, sectors)?;
    push_price(text, part)
}

/// Appends parts, of which the sectors are the flown ones.
fn push_parts(
    text: &mut Vec<u8>,
    sectors: &[LineSector],
    parts: &[LinePart],
) -> Result<(), NoMemory>
    requires { are_parts 0 (length sectors.now) parts.now ≡ true }
    ensures { OnOk result (text.new.items ≡ text.old.items ++ parts_text 0 sectors.now parts.now) }
{
    let mut begun = 0;
    let mut rest = sectors;
    for part in parts {
        let flown = part.end - (begun + gap_count(part.gap));
        let (own, others) = rest.split_at(flown as usize);
        push_part(text, own, part)?;
        rest = others;
        begun = part.end;
    }
    Ok(())
}

/// How many sectors a gap is.
fn gap_count(gap: Option<City>) -> u8
    ensures { result ≡ gap_count gap }
{
    match gap {
        None => 0,
        Some(_) => 1,
    }
}

/// Appends plus-ups.
fn push_plus_ups(text: &mut Vec<u8>, plus: &[PlusUp]) -> Result<(), NoMemory>
    requires { list_all is_plus plus.now ≡ true }
    ensures { OnOk result (text.new.items ≡ text.old.items ++ flat_map plus_text plus.now) }
{
    for one in plus {
        push_plus_up(text, one)?;
    }
    Ok(())
}

/// Appends a plus-up.
fn push_plus_up(text: &mut Vec<u8>, plus: &PlusUp) -> Result<(), NoMemory>
    requires { is_amount plus.now.amount ≡ true }
    ensures { OnOk result (text.new.items ≡ text.old.items ++ plus_text plus.now) }
{
    text.extend_from_slice(b"P/")?;
    push_unit(text, plus.unit)?;
    push_hundredths(text, plus.amount)?;
    Ok(text.push(b' ')?)
}

/// Appends the total and the rate.
fn push_totals(text: &mut Vec<u8>, total: u64, roe: u64) -> Result<(), NoMemory>
    requires total { is_amount total ≡ true }
    requires roe { is_rate roe ≡ true }
    ensures { OnOk result (text.new.items ≡ text.old.items ++ totals_text total roe) }
{
    text.extend_from_slice(b"NUC")?;
    push_hundredths(text, total)?;
    text.extend_from_slice(b"END ROE")?;
    push_code(text, &rate_text(roe))
}
