ghost use Rattle.std.specs.Prelude.{◌≡◌, ◌≤◌, [], length, slice_index_or, All, IfOk, OnOk};
ghost use Rattle.fare_component.specs.References.{AreForms};
ghost use Rattle.fare_component.specs.Table.{IsInBounds, row_of};

use crate::table::entries::{Entries, MOST_ENTRIES, entries_of};
use crate::table::entry::Entry;
use crate::table::forms::Forms;
use fare_conditions::Priced;
use fare_ports::NoMemory;
use std::alloc::Global;
use std::marker::Model;

/// The entries of all spans from one point, by the points where they end.
#[derive(Drop)]
pub(crate) struct Row {
    spans: Vec<Entries>,
}

impl Model for Row {
    ghost use Rattle.std.specs.Prelude.{List};
    ghost use Rattle.fare_component.specs.declared.table.entry.Entry.{Entry};

    ghost Value = { List (List Entry) };

    ghost view = { λ r. r.spans.items };
}

impl Row {
    /// The row of a point.
    #[tactic(auto, using(crate::proofs::TableLemmas::made_push))]
    pub(crate) fn of(
        alloc: Global,
        priced: &Priced,
        forms: &mut Forms,
        a: usize,
    ) -> Result<Row, NoMemory>
        requires { AreForms priced.now.edition.now priced.now.trip.now a forms.old.items.items }
        ensures row { IfOk result (λ row. row ≡ row_of priced.now.edition.now priced.now.trip.now a) }
        ensures forms { OnOk result (AreForms priced.now.edition.now priced.now.trip.now a forms.new.items.items) }
    {
        let mut spans = Vec::new(alloc);
        for b in 0..priced.trip.count() + 1 {
            spans.push(entries_of(alloc, priced, forms, a, b)?)?;
        }
        Ok(Row { spans })
    }

    /// The entries of the span that ends at a point; none behind the last.
    pub(crate) fn entries(&self, b: usize) -> &[Entry]
        ensures entries { result.now ≡ slice_index_or self.now b [] }
        ensures few { length result.now ≤ MOST_ENTRIES }
        ensures bounds { All IsInBounds result.now }
    {
        if b < self.spans.len() {
            self.spans[b].as_slice()
        } else {
            &[]
        }
    }
}
