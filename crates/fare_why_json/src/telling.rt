//! The reasons as they are spelled.

ghost use Rattle.std.specs.Prelude.{◌≡◌, ◌++◌, ◌<◌, ◌^◌, IfOk, IfSome, OnOk};
ghost use Rattle.std.specs.List.{flat_map};
ghost use Rattle.fare_json.specs.Spelled.{after_comma, listed_json};
ghost use Rattle.fare_why_json.specs.Spelled.{broken_json, money_if_json, reason_json, why_json};

use fare_json::{push_broken, push_edition, push_money, push_string};
use fare_ports::NoMemory;
use fare_rules::Broken;
use fare_tariff::Edition;
use fare_text::push_labelled;
use fare_why::{Reason, Why};
use std::alloc::Global;

/// The answer for what was found, as it is spelled.
#[tactic(auto, unfolding(crate::specs::Spelled::why_json))]
pub(crate) fn spelled_why(alloc: Global, edition: &Edition, why: &Why) -> Result<Vec<u8>, NoMemory>
    ensures { IfOk result (λ text. text.items ≡ why_json edition.now why.now) }
{
    let mut text = Vec::new(alloc);
    text.extend_from_slice(b"{\"edition\":")?;
    push_edition(&mut text, edition)?;
    text.extend_from_slice(b",\"total\":")?;
    push_money_if(&mut text, why.total())?;
    text.extend_from_slice(b",\"without\":[")?;
    push_reasons(&mut text, alloc, why.reasons())?;
    text.extend_from_slice(b"]}\n")?;
    Ok(text)
}

/// Appends an amount as a string, or null.
fn push_money_if(text: &mut Vec<u8>, hundredths: Option<u64>) -> Result<(), NoMemory>
    requires { IfSome hundredths (λ amount. amount < 10 ^ 13) }
    ensures { OnOk result (text.new.items ≡ text.old.items ++ money_if_json hundredths) }
{
    match hundredths {
        None => Ok(text.extend_from_slice(b"null")?),
        Some(amount) => push_money(text, b"", amount),
    }
}

/// Appends reasons, with a comma before each but the first.
fn push_reasons(text: &mut Vec<u8>, alloc: Global, reasons: &[Reason]) -> Result<(), NoMemory>
    ensures { OnOk result (text.new.items ≡ text.old.items ++ listed_json reason_json reasons.now) }
{
    match reasons.split_first() {
        None => Ok(()),
        Some((first, rest)) => {
            push_reason(text, alloc, first)?;
            push_more_reasons(text, alloc, rest)
        }
    }
}

/// Appends reasons, each behind a comma.
fn push_more_reasons(text: &mut Vec<u8>, alloc: Global, reasons: &[Reason]) -> Result<(), NoMemory>
    ensures { OnOk result (text.new.items ≡ text.old.items ++ flat_map (after_comma reason_json) reasons.now) }
{
    for reason in reasons {
        text.push(b',')?;
        push_reason(text, alloc, reason)?;
    }
    Ok(())
}

/// Appends a reason.
#[tactic(auto, unfolding(crate::specs::Spelled::reason_json))]
fn push_reason(text: &mut Vec<u8>, alloc: Global, reason: &Reason) -> Result<(), NoMemory>
    ensures { OnOk result (text.new.items ≡ text.old.items ++ reason_json reason.now) }
{
    text.extend_from_slice(b"{\"broken\":")?;
    push_broken_rule(text, alloc, reason.broken())?;
    text.extend_from_slice(b",\"kind\":")?;
    push_string(text, reason.term().name())?;
    text.extend_from_slice(b",\"line\":")?;
    push_string(text, reason.line())?;
    text.extend_from_slice(b",\"saves\":")?;
    push_money_if(text, reason.saves())?;
    push_money(text, b",\"total\":", reason.total())?;
    Ok(text.push(b'}')?)
}

/// Appends a broken rule with its place and its sentence.
#[tactic(auto, unfolding(crate::specs::Spelled::broken_json))]
fn push_broken_rule(text: &mut Vec<u8>, alloc: Global, broken: Broken) -> Result<(), NoMemory>
    ensures { OnOk result (text.new.items ≡ text.old.items ++ broken_json broken) }
{
    push_labelled(text, b"{\"place\":", broken.place)?;
    push_labelled(text, b",\"rule\":", u32::from(broken.rule))?;
    text.extend_from_slice(b",\"words\":")?;
    let mut words = Vec::new(alloc);
    push_broken(&mut words, broken.rule, broken.place)?;
    push_string(text, words.as_slice())?;
    Ok(text.push(b'}')?)
}
