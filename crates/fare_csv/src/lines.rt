//! The lines of a text, written one at a time.

ghost use Rattle.std.specs.Prelude.{◌≡◌, true, [], ◌++◌, map, IfOk, OnOk};
ghost use Rattle.fare_csv.specs.Lines.{is_plain_row, line_of};

use csv::{Writer, WriterBuilder};
use std::alloc::{AllocError, Global};
use std::marker::Model;

/// Writes a text line by line, and is seen as the text so far.
#[derive(Drop)]
pub struct Lines {
    writer: Writer<Vec<u8>>,
    failed: bool,
}

impl Model for Lines {
    ghost use Rattle.std.specs.Prelude.{◌≡◌, false, List, ℕ};
    ghost use Rattle.fare_csv.specs.Written.{IsRowWriter, written};

    ghost Value = { List ℕ };

    ghost view = { λ l. written l.writer };

    ghost invariant = { λ l. l.failed ≡ false → IsRowWriter l.writer };
}

impl Lines {
    /// A text with no line.
    pub fn new(alloc: Global) -> Lines
        ensures { result ≡ [] }
    {
        let writer = WriterBuilder::new()
            .flexible(true)
            .from_writer(Vec::new(alloc));
        Lines {
            writer,
            failed: false,
        }
    }

    /// Adds the line of a row. Only want of memory is refused, and so is each line after it.
    pub fn write(&mut self, fields: &[&[u8]]) -> Result<(), AllocError>
        requires { is_plain_row (map (λ f. f.now) fields.now) ≡ true }
        ensures { OnOk result (self.new ≡ self.old ++ line_of (map (λ f. f.now) fields.now)) }
    {
        if self.failed {
            return Err(AllocError);
        }
        if self.writer.write_fields(fields).is_err() {
            self.failed = true;
            return Err(AllocError);
        }
        Ok(())
    }

    /// The whole text.
    pub fn into_text(self) -> Result<Vec<u8>, AllocError>
        ensures { IfOk result (λ text. text.items ≡ self) }
    {
        match self.writer.into_inner() {
            Ok(text) => Ok(text),
            Err(_) => Err(AllocError),
        }
    }
}
