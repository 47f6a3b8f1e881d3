//! The JSON answers of refusals.

ghost use Rattle.std.specs.Prelude.{◌≡◌, IfOk};
ghost use Rattle.fare_json.specs.FaultData.{fault_data, refusal_data, tariff_data};
ghost use Rattle.fare_json.specs.JsonText.{json_line};
ghost use Rattle.fare_json.specs.Spelled.{refusal_json};

use crate::writing::push_string;
use fare_csv::TextFault;
use fare_ports::NoMemory;
use fare_sentences::{Fault, fault_text, fault_words};
use std::alloc::Global;

/// The JSON answer of a refusal.
pub fn fault_json(alloc: Global, fault: &Fault) -> Result<Vec<u8>, NoMemory>
    ensures { IfOk result (λ text. text.items ≡ json_line (fault_data fault.now)) }
{
    let text = fault_text(alloc, fault)?;
    let words = fault_words(alloc, fault)?;
    refusal_json(alloc, text.as_slice(), words.as_slice())
}

/// The JSON answer of the first fault of a tariff text, with the sentence for it.
pub fn tariff_fault_json(
    alloc: Global,
    fault: &TextFault,
    words: &[u8],
) -> Result<Vec<u8>, NoMemory>
    ensures { IfOk result (λ text. text.items ≡ json_line (tariff_data fault.now words.now)) }
{
    refusal_json(alloc, fault.text().as_str().as_bytes(), words)
}

/// The JSON answer of a refusal by its plain line and its sentence.
#[tactic(auto, using(crate::proofs::FaultLemmas::refusal_text))]
fn refusal_json(alloc: Global, text: &[u8], words: &[u8]) -> Result<Vec<u8>, NoMemory>
    ensures { IfOk result (λ answer. answer.items ≡ json_line (refusal_data text.now words.now)) }
{
    spelled_refusal(alloc, text, words)
}

/// The same, as it is spelled.
#[tactic(auto, unfolding(crate::specs::Spelled::refusal_json))]
fn spelled_refusal(alloc: Global, text: &[u8], words: &[u8]) -> Result<Vec<u8>, NoMemory>
    ensures { IfOk result (λ answer. answer.items ≡ refusal_json text.now words.now) }
{
    let mut answer = Vec::new(alloc);
    answer.extend_from_slice(b"{\"fault\":{\"text\":")?;
    push_string(&mut answer, text)?;
    answer.extend_from_slice(b",\"words\":")?;
    push_string(&mut answer, words)?;
    answer.extend_from_slice(b"}}\n")?;
    Ok(answer)
}
