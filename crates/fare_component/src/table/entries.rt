ghost use Rattle.std.specs.Prelude.{◌≡◌, ◌<◌, ◌≤◌, [], ◌∷◌, ◌++◌, ◌&&◌, length, All, IfOk, OnOk, Some, not, true};
ghost use Rattle.std.specs.Prelude.{if◌then◌else◌};
ghost use Rattle.fare_trip.specs.Itinerary.{count};
ghost use Rattle.fare_rules.specs.Span.{holds_surface};
ghost use Rattle.fare_rules.specs.ComponentAmount.{repeats_city};
ghost use Rattle.fare_component.specs.References.{AreForms};
ghost use Rattle.fare_conditions.specs.Spans.{IsSpan};
ghost use Rattle.fare_component.specs.Table.{IsInBounds, entries_of, entry_of, has_amount};

use crate::table::candidates::{all_candidates, candidates_past, first_candidate};
use crate::table::cursor::Market;
use crate::table::entry::{Entry, entry_of};
use crate::table::forms::Forms;
use fare_conditions::{Priced, Span, is_plain, span_of, surcharge_by};
use fare_ports::NoMemory;
use std::alloc::Global;
use std::marker::Model;

/// A span has at most this many entries: 64 fares may be filed from its start to its end for its indicator, and as many
/// the other way.
pub const MOST_ENTRIES: usize = 128;

/// The entries of one span.
#[derive(Drop)]
pub(crate) struct Entries {
    items: Vec<Entry>,
}

impl Model for Entries {
    ghost use Rattle.std.specs.Prelude.{List, All, length, ◌≤◌};
    ghost use Rattle.fare_component.specs.declared.table.entry.Entry.{Entry};
    ghost use Rattle.fare_component.specs.declared.table.entries.TheConstants.{MOST_ENTRIES};
    ghost use Rattle.fare_component.specs.Table.{IsInBounds};

    ghost Value = { List Entry };

    ghost view = { λ e. e.items.items };

    ghost invariant = { λ e. All IsInBounds e.items.items × (length e.items.items ≤ MOST_ENTRIES) };
}

impl Entries {
    /// No entry.
    fn new(alloc: Global) -> Entries
        ensures { result ≡ [] }
    {
        Entries {
            items: Vec::new(alloc),
        }
    }

    /// Puts an entry last, where it has an amount in some direction.
    fn keep(&mut self, entry: Entry) -> Result<(), NoMemory>
        requires bounds { IsInBounds entry }
        requires room { length self.old < MOST_ENTRIES }
        ensures { OnOk result (self.new ≡ self.old ++ (if has_amount entry then entry ∷ [] else [])) }
    {
        if entry.out.is_some() || entry.back.is_some() {
            self.items.push(entry)?;
        }
        Ok(())
    }

    /// All of them.
    pub(crate) fn as_slice(&self) -> &[Entry]
        ensures entries { result.now ≡ self.now }
        ensures few { length result.now ≤ MOST_ENTRIES }
        ensures bounds { All IsInBounds result.now }
    {
        self.items.as_slice()
    }
}

/// Puts the entry of a record number last, where it has an amount in some direction.
fn keep_entry(
    priced: &Priced,
    forms: &mut Forms,
    span: &Span,
    number: u32,
    entries: &mut Entries,
) -> Result<(), NoMemory>
    requires forms { AreForms priced.now.edition.now priced.now.trip.now span.now.a forms.old.items.items }
    requires span { IsSpan priced.now.edition.now priced.now.trip.now span.now }
    requires room { length entries.old < MOST_ENTRIES }
    ensures kept { OnOk result (entries.new ≡ entries.old
        ++ (if has_amount (entry_of priced.now.edition.now priced.now.trip.now span.now.a span.now.b number)
        then entry_of priced.now.edition.now priced.now.trip.now span.now.a span.now.b number ∷ [] else [])) }
    ensures forms { OnOk result (AreForms priced.now.edition.now priced.now.trip.now span.now.a forms.new.items.items) }
{
    match entry_of(priced, forms, span, number) {
        Err(error) => Err(error),
        Ok(entry) => entries.keep(entry),
    }
}

/// The entries of a span whose mileage asks for a surcharge: each fare between its ends for its indicator is tried.
fn measured_entries(
    alloc: Global,
    priced: &Priced,
    forms: &mut Forms,
    span: &Span,
) -> Result<Entries, NoMemory>
    requires forms { AreForms priced.now.edition.now priced.now.trip.now span.now.a forms.old.items.items }
    requires span { IsSpan priced.now.edition.now priced.now.trip.now span.now }
    ensures entries { IfOk result (λ entries. entries
        ≡ entries_of priced.now.edition.now priced.now.trip.now span.now.a span.now.b) }
    ensures forms { OnOk result (AreForms priced.now.edition.now priced.now.trip.now span.now.a forms.new.items.items) }
{
    let (from, to) = (priced.trip.point(span.a), priced.trip.point(span.b));
    let market = Market {
        from,
        to,
        ind: span.ind,
    };
    let mut entries = Entries::new(alloc);
    let mut candidates = all_candidates(priced.edition, &market);
    while let Some(number) = first_candidate(candidates) {
        candidates = candidates_past(priced.edition, &market, candidates, number);
        keep_entry(priced, forms, span, number, &mut entries)?;
    }
    Ok(entries)
}

/// The entries of a span that can be a component: none where its mileage lets no fare be used.
#[tactic(auto, using(crate::proofs::EntryLemmas::no_entries_unmeasured))]
fn plain_entries(
    alloc: Global,
    priced: &Priced,
    forms: &mut Forms,
    a: usize,
    b: usize,
) -> Result<Entries, NoMemory>
    requires forms { AreForms priced.now.edition.now priced.now.trip.now a forms.old.items.items }
    requires rises { a < b }
    requires within { b ≤ count priced.now.trip.now }
    requires plain { (not (holds_surface priced.now.trip.now a b)
        && not (repeats_city priced.now.trip.now a b)) ≡ true }
    ensures entries { IfOk result (λ entries. entries ≡ entries_of priced.now.edition.now priced.now.trip.now a b) }
    ensures forms { OnOk result (AreForms priced.now.edition.now priced.now.trip.now a forms.new.items.items) }
{
    let ind = priced.indicator(a, b);
    match surcharge_by(priced, a, b, ind) {
        None => Ok(Entries::new(alloc)),
        Some(step) => {
            let span = span_of(priced, a, b, ind, step);
            measured_entries(alloc, priced, forms, &span)
        }
    }
}

/// The entries of two points of a trip: those of the span, and none where they make no span.
pub(crate) fn entries_of(
    alloc: Global,
    priced: &Priced,
    forms: &mut Forms,
    a: usize,
    b: usize,
) -> Result<Entries, NoMemory>
    requires forms { AreForms priced.now.edition.now priced.now.trip.now a forms.old.items.items }
    requires within { b ≤ count priced.now.trip.now }
    ensures entries { IfOk result (λ entries. entries ≡ entries_of priced.now.edition.now priced.now.trip.now a b) }
    ensures forms { OnOk result (AreForms priced.now.edition.now priced.now.trip.now a forms.new.items.items) }
{
    if a < b && is_plain(priced.trip, a, b) {
        plain_entries(alloc, priced, forms, a, b)
    } else {
        Ok(Entries::new(alloc))
    }
}
