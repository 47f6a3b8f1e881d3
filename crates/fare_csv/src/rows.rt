//! The rows of a text, one at a time.

ghost use Rattle.std.specs.Prelude.{◌≡◌, [], ◌∷◌, if◌then◌else◌, IfOk, OnErr, length, slice_index_or};
ghost use Rattle.fare_csv.specs.Rows.{rows_of};

use crate::field_list::FieldList;
use csv::{ByteRecord, Reader, ReaderBuilder};
use std::alloc::{AllocError, Global};
use std::marker::Model;

/// A row of a text, seen as the list of its fields.
#[derive(Drop)]
pub struct Row {
    record: ByteRecord,
}

impl Model for Row {
    ghost use Rattle.std.specs.Prelude.{List, ℕ};
    ghost use Rattle.csv.specs.Records.{fields_of};

    ghost Value = { List (List ℕ) };

    ghost view = { λ r. fields_of r.record };
}

impl Row {
    /// A row with no fields, to be read into.
    pub fn new(alloc: Global) -> Row
        ensures { result ≡ [] }
    {
        Row {
            record: ByteRecord::new(alloc),
        }
    }

    /// How many fields the row has.
    pub fn len(&self) -> usize
        ensures { result ≡ length self.now }
    {
        self.record.len()
    }

    /// The field at this index, from 0; empty past the last.
    pub fn field(&self, index: usize) -> &[u8]
        ensures { result.now ≡ slice_index_or self.now index [] }
    {
        self.record.get(index).unwrap_or(&[])
    }

    /// The fields, where they stand in the row.
    pub(crate) fn fields(&self, alloc: Global) -> Result<FieldList<'_>, AllocError>
        ensures { IfOk result (λ fields. fields ≡ self.now) }
    {
        let mut fields = FieldList::with_capacity(alloc, self.len())?;
        for index in 0..self.len() {
            fields.push(self.field(index))?;
        }
        Ok(fields)
    }
}

/// Reads a text row by row, and is seen as the rows that are left.
#[derive(Drop)]
pub struct Rows<'a> {
    reader: Reader<&'a [u8]>,
}

impl<'a> Model for Rows<'a> {
    ghost use Rattle.std.specs.Prelude.{List, ℕ};
    ghost use Rattle.fare_csv.specs.RowsLeft.{IsRowReaderUnlessFailed, rows_left};

    ghost Value = { List (List (List ℕ)) };

    ghost view = { λ r. rows_left r.reader };

    ghost invariant = { λ r. IsRowReaderUnlessFailed r.reader };
}

impl<'a> Rows<'a> {
    /// All rows of a text.
    pub fn new(alloc: Global, text: &'a [u8]) -> Rows<'a>
        ensures { result ≡ rows_of text.now }
    {
        let reader = ReaderBuilder::new()
            .has_headers(false)
            .flexible(true)
            .from_reader(alloc, text);
        Rows { reader }
    }

    /// Takes the next row into `row`, and says whether there was one. Only want of memory is
    /// refused, and nothing is left to read after it.
    pub fn read_row(&mut self, row: &mut Row) -> Result<bool, AllocError>
        ensures taken { IfOk result (λ found. self.old ≡ (if found then row.new ∷ self.new else [])) }
        ensures refused { OnErr result (self.new ≡ []) }
    {
        match self.reader.read_byte_record(&mut row.record) {
            Ok(found) => Ok(found),
            Err(_) => Err(AllocError),
        }
    }
}
