//! The fields of a row, where they stand in a text.

ghost use Rattle.std.specs.Prelude.{◌≡◌, [], ◌∷◌, ◌++◌, IfOk, OnOk, length, slice_index_or};
ghost use Rattle.fare_csv.specs.Fields.{counted};

use crate::text_fault::TextFault;
use std::alloc::{AllocError, Global};
use std::marker::Model;

/// The fields of a row, none of which is copied. It is seen as their list.
#[derive(Drop)]
pub(crate) struct FieldList<'a> {
    slices: Vec<&'a [u8]>,
}

impl<'a> Model for FieldList<'a> {
    ghost use Rattle.std.specs.Prelude.{List, ℕ, map};

    ghost Value = { List (List ℕ) };

    ghost view = { λ f. map (λ s. s.now) f.slices.items };
}

impl<'a> FieldList<'a> {
    /// No fields.
    pub(crate) fn new(alloc: Global) -> FieldList<'a>
        ensures { result ≡ [] }
    {
        FieldList {
            slices: Vec::new(alloc),
        }
    }

    /// No fields, with room for so many.
    pub(crate) fn with_capacity(alloc: Global, room: usize) -> Result<FieldList<'a>, AllocError>
        ensures { IfOk result (λ fields. fields ≡ []) }
    {
        Ok(FieldList {
            slices: Vec::with_capacity(alloc, room)?,
        })
    }

    /// Takes all fields away; their room is kept.
    pub(crate) fn clear(&mut self)
        ensures { self.new ≡ [] }
    {
        self.slices.clear();
    }

    /// Adds a field at the end. It is called for each field of a text.
    #[inline(always)]
    pub(crate) fn push(&mut self, field: &'a [u8]) -> Result<(), AllocError>
        ensures { OnOk result (self.new ≡ self.old ++ (field.now ∷ [])) }
    {
        if self.slices.len() < self.slices.capacity() {
            self.slices.push_reserved(field);
            return Ok(());
        }
        self.slices.push(field)?;
        Ok(())
    }

    /// The field at this index, from 0; empty past the last.
    pub(crate) fn field(&self, index: usize) -> &'a [u8]
        ensures { result.now ≡ slice_index_or self.now index [] }
    {
        match self.slices.get(index) {
            Some(field) => *field,
            None => &[],
        }
    }

    /// Refuses another count of fields.
    #[tactic(auto, unfolding(crate::specs::Fields::counted))]
    pub(crate) fn counted(&self, number: u32, count: usize) -> Result<(), TextFault>
        ensures { result ≡ counted number count self.now }
    {
        if self.slices.len() == count {
            Ok(())
        } else {
            Err(TextFault::BadRecord(number, 0))
        }
    }
}
