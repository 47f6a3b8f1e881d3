//! The JSON answer of an audit.

ghost use Rattle.std.specs.Prelude.{◌≡◌, ◌++◌, IfOk, OnOk};
ghost use Rattle.fare_json.specs.AuditData.{audit_data};
ghost use Rattle.fare_json.specs.JsonText.{json_line};
ghost use Rattle.fare_codes.specs.Numbers.{nuc_text};
ghost use Rattle.fare_json.specs.Spelled.{audit_json, broken_json, named_json, priced_json, verdict_json};

use crate::edition::push_edition;
use crate::writing::push_string;
use fare_audit::Verdict;
use fare_line::Line;
use fare_ports::NoMemory;
use fare_sentences::verdict_words;
use fare_tariff::Edition;
use fare_text::{push_decimal, push_labelled};
use std::alloc::Global;

/// The JSON answer of the verdict on a line in an edition.
#[tactic(auto, using(crate::proofs::AuditLemmas::audit_text))]
pub fn audit_json(
    alloc: Global,
    edition: &Edition,
    line: &Line,
    verdict: &Verdict,
) -> Result<Vec<u8>, NoMemory>
    ensures { IfOk result (λ text. text.items ≡ json_line (audit_data edition.now line.now verdict.now)) }
{
    let words = verdict_words(alloc, line.parts.len(), verdict)?;
    spelled_audit(alloc, edition, verdict, words.as_slice())
}

/// The answer by the sentence of the verdict, as it is spelled.
#[tactic(auto, unfolding(crate::specs::Spelled::audit_json))]
fn spelled_audit(
    alloc: Global,
    edition: &Edition,
    verdict: &Verdict,
    words: &[u8],
) -> Result<Vec<u8>, NoMemory>
    ensures { IfOk result (λ text. text.items ≡ audit_json edition.now verdict.now words.now) }
{
    let mut text = Vec::new(alloc);
    text.extend_from_slice(b"{\"edition\":")?;
    push_edition(&mut text, edition)?;
    text.extend_from_slice(b",\"verdict\":")?;
    push_verdict(&mut text, alloc, verdict, words)?;
    text.extend_from_slice(b"}\n")?;
    Ok(text)
}

/// Appends a verdict with its sentence.
fn push_verdict(
    text: &mut Vec<u8>,
    alloc: Global,
    verdict: &Verdict,
    words: &[u8],
) -> Result<(), NoMemory>
    ensures { OnOk result (text.new.items ≡ text.old.items ++ verdict_json verdict.now words.now) }
{
    match *verdict {
        Verdict::OtherTrip(sector) => {
            push_numbered(text, b"{\"name\":\"OTHER TRIP\",\"sector\":", sector, words)
        }
        Verdict::NoRecord(place) => {
            push_numbered(text, b"{\"name\":\"NO RECORD\",\"part\":", place, words)
        }
        Verdict::Broken(broken) => push_broken(text, broken.place, broken.rule, words),
        Verdict::Figures(place) => {
            push_numbered(text, b"{\"name\":\"FIGURES\",\"part\":", place, words)
        }
        Verdict::Lawful { price, over } => push_priced(text, alloc, price, over, words),
    }
}

/// Appends a number behind its member's name, and the sentence that ends an object.
#[tactic(auto, unfolding(crate::specs::Spelled::named_json))]
fn push_numbered(text: &mut Vec<u8>, name: &[u8], number: u32, words: &[u8]) -> Result<(), NoMemory>
    ensures { OnOk result (text.new.items ≡ text.old.items ++ named_json name.now number words.now) }
{
    push_labelled(text, name, number)?;
    text.extend_from_slice(b",\"words\":")?;
    push_string(text, words)?;
    Ok(text.push(b'}')?)
}

/// Appends a broken rule with its sentence.
#[tactic(auto, unfolding(crate::specs::Spelled::broken_json))]
fn push_broken(text: &mut Vec<u8>, place: u32, rule: u8, words: &[u8]) -> Result<(), NoMemory>
    ensures { OnOk result (text.new.items ≡ text.old.items ++ broken_json place rule words.now) }
{
    push_labelled(text, b"{\"name\":\"BROKEN\",\"place\":", place)?;
    push_numbered(text, b",\"rule\":", u32::from(rule), words)?;
    Ok(())
}

/// Appends a lawful verdict with its sentence.
#[tactic(auto, unfolding(crate::specs::Spelled::priced_json))]
fn push_priced(
    text: &mut Vec<u8>,
    alloc: Global,
    price: u64,
    over: u64,
    words: &[u8],
) -> Result<(), NoMemory>
    ensures { OnOk result (text.new.items ≡ text.old.items ++ priced_json price over words.now) }
{
    text.extend_from_slice(b"{\"name\":\"LAWFUL\",\"over\":")?;
    push_string(text, money_text(alloc, over)?.as_slice())?;
    text.extend_from_slice(b",\"price\":")?;
    push_string(text, money_text(alloc, price)?.as_slice())?;
    text.extend_from_slice(b",\"words\":")?;
    push_string(text, words)?;
    Ok(text.push(b'}')?)
}

/// The text of an amount of any size.
fn money_text(alloc: Global, hundredths: u64) -> Result<Vec<u8>, NoMemory>
    ensures { IfOk result (λ text. text.items ≡ nuc_text hundredths) }
{
    let mut text = Vec::new(alloc);
    push_decimal(&mut text, u128::from(hundredths), 2)?;
    Ok(text)
}
