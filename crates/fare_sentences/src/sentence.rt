//! What the sentences are made of.

ghost use Rattle.std.specs.Prelude.{◌≡◌, ◌++◌, OnOk};
ghost use Rattle.fare_sentences.specs.Sentence.{around};

use fare_ports::NoMemory;
use fare_text::push_number;

/// Appends a number with what stands before and behind it.
pub(crate) fn push_around(
    text: &mut Vec<u8>,
    before: &[u8],
    number: u32,
    after: &[u8],
) -> Result<(), NoMemory>
    ensures { OnOk result (text.new.items ≡ text.old.items ++ around before.now number after.now) }
{
    text.extend_from_slice(before)?;
    push_number(text, number)?;
    Ok(text.extend_from_slice(after)?)
}
