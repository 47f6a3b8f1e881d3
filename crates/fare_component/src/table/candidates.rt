ghost use Rattle.std.specs.Prelude.{◌≡◌, ◌+◌, ◌<◌, Some};
ghost use Rattle.fare_component.specs.Candidates.{StandAt, first_of, lesser, passed};

use crate::table::cursor::{Cursor, Market, cursor_past, first_cursor};
use fare_tariff::Edition;

/// The fares between two cities for an indicator that are still to come, in either direction and in record order.
#[derive(Clone, Copy)]
pub(crate) struct Candidates {
    pub(crate) out: Cursor,
    pub(crate) back: Cursor,
}

/// The lesser of two numbers, where there is one.
fn lesser(a: Option<u32>, b: Option<u32>) -> Option<u32>
    ensures { result ≡ lesser a b }
{
    match (a, b) {
        (None, _) => b,
        (Some(_), None) => a,
        (Some(x), Some(y)) => Some(x.min(y)),
    }
}

/// All fares between two cities for an indicator.
pub(crate) fn all_candidates(edition: &Edition, market: &Market) -> Candidates
    ensures stand { StandAt edition.now market.now.from market.now.to market.now.ind 2 result }
    ensures none_passed { passed result ≡ 0 }
{
    Candidates {
        out: first_cursor(edition, market),
        back: first_cursor(edition, &market.back()),
    }
}

/// The record number of the first that is still to come.
pub(crate) fn first_candidate(candidates: Candidates) -> Option<u32>
    ensures { result ≡ first_of candidates }
{
    lesser(candidates.out.next, candidates.back.next)
}

/// Those behind the first, which has this number.
#[tactic(auto, using(crate::proofs::CandidateLemmas::is_shown))]
pub(crate) fn candidates_past(
    edition: &Edition,
    market: &Market,
    candidates: Candidates,
    number: u32,
) -> Candidates
    requires first { first_of candidates ≡ Some number }
    requires stand { StandAt edition.now market.now.from market.now.to market.now.ind number candidates }
    ensures stand { StandAt edition.now market.now.from market.now.to market.now.ind (number + 1) result }
    ensures more { passed candidates < passed result }
{
    Candidates {
        out: cursor_past(edition, market, candidates.out, number),
        back: cursor_past(edition, &market.back(), candidates.back, number),
    }
}
