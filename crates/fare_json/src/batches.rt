//! The JSON answer of a batch, written item after item.

ghost use Rattle.std.specs.Prelude.{◌≡◌, ◌++◌, OnOk};
ghost use Rattle.fare_json.specs.BatchData.{batch_begin, batch_end, comma_before, item_json, without_line_end};

use fare_ports::NoMemory;
use fare_text::push_labelled;

/// Appends what stands before the items of a batch.
pub fn push_batch_begin(text: &mut Vec<u8>) -> Result<(), NoMemory>
    ensures { OnOk result (text.new.items ≡ text.old.items ++ batch_begin) }
{
    Ok(text.extend_from_slice(b"{\"items\":[")?)
}

/// Appends an item by its number, from 1: the JSON answer that the element has by itself, with the LF that ends it, and
/// its status. After want of memory a part of it may stand there.
#[tactic(auto, unfolding(crate::specs::BatchData::item_json))]
pub fn push_batch_item(
    text: &mut Vec<u8>,
    number: u32,
    answer: &[u8],
    status: u16,
) -> Result<(), NoMemory>
    ensures { OnOk result (text.new.items ≡ text.old.items ++ item_json number answer.now status) }
{
    push_comma_after(text, number)?;
    text.extend_from_slice(b"{\"answer\":")?;
    text.extend_from_slice(without_line_end(answer))?;
    push_labelled(text, b",\"status\":", u32::from(status))?;
    Ok(text.push(b'}')?)
}

/// Appends a comma, but before the item of number 1.
fn push_comma_after(text: &mut Vec<u8>, number: u32) -> Result<(), NoMemory>
    ensures { OnOk result (text.new.items ≡ text.old.items ++ comma_before number) }
{
    if number == 1 {
        Ok(())
    } else {
        Ok(text.push(b',')?)
    }
}

/// An answer without the LF that ends it.
fn without_line_end(answer: &[u8]) -> &[u8]
    ensures { result.now ≡ without_line_end answer.now }
{
    &answer[..answer.len().saturating_sub(1)]
}

/// Appends what stands behind the items of a batch, with the LF that ends the answer.
pub fn push_batch_end(text: &mut Vec<u8>) -> Result<(), NoMemory>
    ensures { OnOk result (text.new.items ≡ text.old.items ++ batch_end) }
{
    Ok(text.extend_from_slice(b"]}\n")?)
}
