//! A line beside the one of its construction.

ghost use Rattle.std.specs.Prelude.{◌≡◌, ◌↔◌, ◌≤◌, IfOk, IsTrue, length, slice_get};
ghost use Rattle.std.specs.Option.{option_copied};
ghost use Rattle.fare_audit.specs.Figures.{differ_in_figures, differs_at, first_figure, has_figures_of, same_letter};
ghost use Rattle.fare_audit.specs.Figures.{same_pair};

use fare_codes::{City, MOST_SECTORS};
use fare_line::{Letter, Line, LinePart, print_line, text_tells};
use fare_ports::NoMemory;
use std::alloc::Global;

/// Whether two lines are the same: they have one text.
pub(crate) fn is_same_line(alloc: Global, one: &Line, other: &Line) -> Result<bool, NoMemory>
    ensures { IfOk result (λ same. IsTrue same ↔ (one.now ≡ other.now)) }
{
    text_tells();
    let text = print_line(alloc, one)?;
    let other_text = print_line(alloc, other)?;
    Ok(text.as_slice() == other_text.as_slice())
}

/// Whether two letters are the same.
fn same_letter(a: Letter, b: Letter) -> bool
    ensures { result ≡ same_letter a b }
{
    match (a, b) {
        (Letter::Bare, Letter::Bare) => true,
        (Letter::Mileage(a), Letter::Mileage(b)) => a == b,
        _ => false,
    }
}

/// Whether two pairs of cities are the same, or neither is there.
fn same_pair(a: &Option<(City, City)>, b: &Option<(City, City)>) -> bool
    ensures { result ≡ same_pair a.now b.now }
{
    match (a, b) {
        (None, None) => true,
        (Some(a), Some(b)) => a.0.is(b.0) && a.1.is(b.1),
        _ => false,
    }
}

/// Whether two parts have the same letter, pair and amount.
fn has_figures_of(a: &LinePart, b: &LinePart) -> bool
    ensures { result ≡ has_figures_of a.now b.now }
{
    same_letter(a.letter, b.letter) && same_pair(&a.pair, &b.pair) && a.amount == b.amount
}

/// Whether of two parts just one is there, or they differ in letter, pair or amount.
fn differ_in_figures(a: Option<&LinePart>, b: Option<&LinePart>) -> bool
    ensures { result ≡ differ_in_figures (option_copied a.entry) (option_copied b.entry) }
{
    match (a, b) {
        (Some(a), Some(b)) => !has_figures_of(a, b),
        (None, None) => false,
        _ => true,
    }
}

/// Whether the parts at a place differ in letter, pair or amount.
fn differs_at(parts: &[LinePart], others: &[LinePart], k: usize) -> bool
    requires { 1 ≤ k }
    ensures { result ≡ differs_at parts.now others.now k }
{
    differ_in_figures(parts.get(k - 1), others.get(k - 1))
}

/// The first part that differs in letter, pair or amount from the other one at its place, else the number of parts
/// plus 1.
#[tactic(auto, using(fare_rules::proofs::NumberLemmas::find_next, fare_rules::proofs::NumberLemmas::find_done), unfolding(crate::specs::Figures::first_figure))]
pub(crate) fn first_figure(parts: &[LinePart], others: &[LinePart]) -> u32
    requires { length parts.now ≤ MOST_SECTORS }
    ensures { result ≡ first_figure parts.now others.now }
{
    for i in 0..parts.len() {
        if differs_at(parts, others, i + 1) {
            return i as u32 + 1;
        }
    }
    parts.len() as u32 + 1
}
