//! The greatest references from the stopovers before a point, kept for the components that begin earlier.

ghost use Rattle.std.specs.Prelude.{◌≡◌, ◌<◌, ◌≤◌, IfSome, None, if◌then◌else◌};
ghost use Rattle.fare_trip.specs.Itinerary.{Itinerary, count};
ghost use Rattle.fare_tariff.specs.Tariff.{Tariff};
ghost use Rattle.fare_rules.specs.Span.{is_stopover};
ghost use Rattle.fare_component.specs.declared.table.references.Form.{Form};
ghost use Rattle.fare_component.specs.References.{AreReferences, IsColumn, greatest_to, reference_of};

use crate::table::entry::at_least;
use crate::table::references::{Column, References};
use fare_codes::{FARE_LIMIT, Nuc};
use fare_conditions::Priced;

/// The column to a point that serves those from another on: the one that is kept, where it begins there or later, else
/// an empty one.
fn serving(kept: Option<Column>, first: usize, j: usize) -> Column
    requires { first ≤ j }
    ensures behind { first ≤ result.first }
    ensures within { result.first ≤ j }
    ensures right { (tariff : Tariff) (trip : Itinerary) (form : Form) → IfSome kept (IsColumn tariff trip form j)
        → IsColumn tariff trip form j result }
{
    if let Some(column) = kept {
        if first <= column.first && column.first <= j {
            return column;
        }
    }
    Column { first: j, high: 0 }
}

impl References {
    /// From here on the column to a point is this one.
    fn keep(&mut self, priced: &Priced, j: usize, column: Column)
        requires right { AreReferences priced.now.edition.now priced.now.trip.now self.old }
        requires within { j ≤ count priced.now.trip.now }
        requires column { IsColumn priced.now.edition.now priced.now.trip.now self.old.form j column }
        ensures form { self.new.form ≡ self.old.form }
        ensures reach { self.new.reach ≡ self.old.reach }
        ensures right { AreReferences priced.now.edition.now priced.now.trip.now self.new }
    {
        let count = priced.trip.count();
        prove!(j <= count);
        self.columns[j] = Some(column);
    }
}

/// The reference between two points of which the first is a stopover, where it is.
fn reference_from(priced: &Priced, known: &mut References, i: usize, j: usize) -> Option<Nuc>
    requires known { AreReferences priced.now.edition.now priced.now.trip.now known.old }
    requires begins { 1 ≤ i }
    requires rises { i < j }
    requires within { j ≤ count priced.now.trip.now }
    ensures value { result ≡ (if is_stopover priced.now.trip.now i
        then reference_of priced.now.edition.now priced.now.trip.now known.old.form i j else None) }
    ensures bound { IfSome result (λ amount. amount < FARE_LIMIT) }
    ensures form { known.new.form ≡ known.old.form }
    ensures reach { known.new.reach ≡ known.old.reach }
    ensures known { AreReferences priced.now.edition.now priced.now.trip.now known.new }
{
    if priced.trip.sector(i).stop {
        known.between(priced, i, j)
    } else {
        None
    }
}

/// The greatest reference between the stopovers from a point on, before another, and a later point; 0 where there is
/// none.
#[tactic(auto, using(crate::proofs::ColumnLemmas::stop_taken, crate::proofs::ColumnLemmas::stops_taken), unfolding(crate::specs::References::greatest_to))]
fn greatest_before(
    priced: &Priced,
    known: &mut References,
    first: usize,
    past: usize,
    j: usize,
) -> Nuc
    requires known { AreReferences priced.now.edition.now priced.now.trip.now known.old }
    requires begins { 1 ≤ first }
    requires ends { past ≤ j }
    requires within { j ≤ count priced.now.trip.now }
    ensures value { result ≡ greatest_to priced.now.edition.now priced.now.trip.now known.old.form first past j }
    ensures bound { result < FARE_LIMIT }
    ensures form { known.new.form ≡ known.old.form }
    ensures reach { known.new.reach ≡ known.old.reach }
    ensures known { AreReferences priced.now.edition.now priced.now.trip.now known.new }
{
    let mut greatest = Nuc::new(0);
    for i in first..past {
        let found = reference_from(priced, known, i, j);
        greatest = at_least(greatest, found);
    }
    greatest
}

/// The greatest reference between the stopovers from a point on and a later point; 0 where there is none. That of the
/// later stopovers is mostly kept.
pub(crate) fn greatest_to(priced: &Priced, known: &mut References, first: usize, j: usize) -> Nuc
    requires known { AreReferences priced.now.edition.now priced.now.trip.now known.old }
    requires begins { 1 ≤ first }
    requires rises { first ≤ j }
    requires within { j ≤ count priced.now.trip.now }
    ensures value { result ≡ greatest_to priced.now.edition.now priced.now.trip.now known.old.form first j j }
    ensures bound { result < FARE_LIMIT }
    ensures form { known.new.form ≡ known.old.form }
    ensures reach { known.new.reach ≡ known.old.reach }
    ensures known { AreReferences priced.now.edition.now priced.now.trip.now known.new }
{
    let count = priced.trip.count();
    prove!(j <= count);
    let column = serving(known.columns[j], first, j);
    let more = greatest_before(priced, known, first, column.first, j);
    let high = more.hundredths().max(column.high);
    known.keep(priced, j, Column { first, high });
    Nuc::new(high)
}
