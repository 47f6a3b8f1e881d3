//! A line of a word and a number.

ghost use Rattle.std.specs.Prelude.{◌≡◌, ◌++◌, codes, decimal, IfOk};

use fare_ports::NoMemory;
use fare_text::push_labelled;
use std::alloc::Global;

/// A line of a word and a number.
pub fn numbered_line(alloc: Global, word: &[u8], number: u32) -> Result<Vec<u8>, NoMemory>
    ensures { IfOk result (λ text. text.items ≡ word.now ++ decimal number ++ codes "\n") }
{
    let mut text = Vec::new(alloc);
    push_labelled(&mut text, word, number)?;
    text.push(b'\n')?;
    Ok(text)
}
