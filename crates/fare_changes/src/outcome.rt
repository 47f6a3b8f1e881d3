//! What became of the items of a batch.

ghost use Rattle.std.specs.Prelude.{◌≡◌, ◌↔◌, IsTrue, Some};
ghost use Rattle.fare_changes.specs.CompareText.{count_of, outcome_of, same_outcome};

use crate::compared::Compared;

/// What became of an item of a batch from the one edition to the other.
#[derive(Clone, Copy, Debug, PartialEq, Eq)]
pub enum Outcome {
    /// It costs the same.
    Same,
    /// It costs more.
    Dearer,
    /// It costs less.
    Cheaper,
    /// It has a total in the other edition alone.
    Opened,
    /// It has a total in the one edition alone.
    Closed,
    /// It has no total.
    Neither,
    /// It stands for no trip, or neither edition knows one of its points.
    Fault,
}

impl Outcome {
    /// Whether both are the same.
    #[tactic(auto, using(crate::proofs::Outcomes::outcome_test))]
    fn is(self, other: Outcome) -> bool
        ensures same { IsTrue result ↔ (self ≡ other) }
        ensures test { result ≡ same_outcome self other }
    {
        self == other
    }
}

/// What became of an item with two totals.
fn change_of(old: u64, new: u64) -> Outcome
    ensures { result ≡ outcome_of (Compared.Totals (Some old) (Some new)) }
{
    if old == new {
        Outcome::Same
    } else if old < new {
        Outcome::Dearer
    } else {
        Outcome::Cheaper
    }
}

/// What became of an item.
fn outcome_of(one: &Compared) -> Outcome
    ensures { result ≡ outcome_of one.now }
{
    match *one {
        Compared::Totals(Some(old), Some(new)) => change_of(old, new),
        Compared::Totals(None, Some(_)) => Outcome::Opened,
        Compared::Totals(Some(_), None) => Outcome::Closed,
        Compared::Totals(None, None) => Outcome::Neither,
        _ => Outcome::Fault,
    }
}

/// Whether an item has an outcome.
fn became(outcome: Outcome, one: &Compared) -> bool
    ensures { result ≡ same_outcome outcome (outcome_of one.now) }
{
    outcome.is(outcome_of(one))
}

/// How many items have an outcome.
pub(crate) fn count_of(outcome: Outcome, compared: &[Compared]) -> usize
    ensures { result ≡ count_of outcome compared.now }
{
    compared.iter().filter(|one| became(outcome, one)).count()
}
