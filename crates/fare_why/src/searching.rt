//! The searches, side by side.

ghost use Rattle.std.specs.Prelude.{◌≡◌, ◌<◌, ℕ, IfOk, IfSome, length, slice_index_or};
ghost use Rattle.fare_relaxed.specs.declared.term.Term.{Term};
ghost use Rattle.fare_why.specs.Reasons.{IsShownFor};
ghost use Rattle.fare_why.specs.Asked.{AreSearched, Slot};

use crate::alternative::shown_for;
use crate::asked::Asked;
use crate::reason::Reason;
use fare_ports::NoMemory;
use fare_relaxed::Term;
use std::alloc::Global;
use std::thread;
use std::thread::Threads;

/// What finds the best construction of a trip, and how many of the searches for the best without a kind of condition
/// run side by side, which changes no answer.
#[derive(Clone, Copy)]
pub struct Searches<'q, Q> {
    /// What finds the best construction of the edition itself.
    pub quoter: &'q Q,
    /// The most threads.
    pub threads: usize,
}

/// What is shown for each of some kinds of condition, in their order. One that isn't there found memory wanting.
pub(crate) fn searched<R: Threads + Sync>(
    rt: &R,
    alloc: Global,
    threads: usize,
    asked: &Asked<'_>,
    terms: &[Term],
) -> Result<Vec<Option<Option<Reason>>>, NoMemory>
    requires { 0 < threads }
    ensures { IfOk result (λ slots.
        AreSearched asked.now.edition.now asked.now.trip.now asked.now.total terms.now slots.items) }
{
    let mut slots = Vec::new(alloc);
    slots.resize_with(terms.len(), || None)?;
    search_each(rt, alloc, threads, asked, terms, slots.as_mut_slice());
    Ok(slots)
}

/// Puts what is shown for each kind at its place.
fn search_each<R: Threads + Sync>(
    rt: &R,
    alloc: Global,
    threads: usize,
    asked: &Asked<'_>,
    terms: &[Term],
    slots: &mut [Option<Option<Reason>>],
)
    requires some { 0 < threads }
    requires count { length slots.old ≡ length terms.now }
    ensures { (i : ℕ) (slot : Slot) (term : Term) → i < length slots.old → IfSome (slice_index_or slots.new i slot)
        (IsShownFor asked.now.edition.now asked.now.trip.now asked.now.total (slice_index_or terms.now i term)) }
{
    thread::for_each_mut(
        rt,
        slots,
        threads,
        &|place: usize, slot: &mut Option<Option<Reason>>|
            requires { place < length terms.now }
        { *slot = shown_for(rt, alloc, asked, terms[place]).ok() },
    );
}
