ghost use Rattle.std.specs.Prelude.{◌≡◌, ◌<◌, IfSome, All, option_map};
ghost use Rattle.fare_component.specs.Table.{IsInBounds};
ghost use Rattle.fare_component.specs.Usable.{IsAmount};
ghost use Rattle.fare_bounds.specs.Covers.{hundredths_of, least_cost, lesser};
ghost use Rattle.fare_bounds.specs.Search.{cheapest};

use crate::limits::COST_LIMIT;
use fare_component::{Amount, Entry};

/// The lesser of two amounts, of which either may be missing.
pub fn lesser(a: Option<u64>, b: Option<u64>) -> Option<u64>
    ensures { result ≡ lesser a b }
{
    match (a, b) {
        (None, _) => b,
        (Some(_), None) => a,
        (Some(x), Some(y)) => Some(x.min(y)),
    }
}

/// The hundredths of a component amount.
fn hundredths_of(found: &Option<Amount>) -> Option<u64>
    requires { IfSome found.now IsAmount }
    ensures value { result ≡ option_map hundredths_of found.now }
    ensures bound { IfSome result (λ cost. cost < COST_LIMIT) }
{
    match found {
        None => None,
        Some(found) => Some(found.amount.hundredths()),
    }
}

/// What an entry costs at least: a one way fare its price as a unit of its own, and a half round trip the lesser of its
/// amounts in the two directions.
pub fn least_cost(entry: &Entry) -> Option<u64>
    requires { IsInBounds entry.now }
    ensures value { result ≡ least_cost entry.now }
    ensures bound { IfSome result (λ cost. cost < COST_LIMIT) }
{
    match entry.single {
        Some(price) => Some(price.hundredths()),
        None => lesser(hundredths_of(&entry.out), hundredths_of(&entry.back)),
    }
}

/// The least cost of some entries.
#[tactic(auto, using(crate::proofs::CostLemmas::cheapest_more, crate::proofs::CostLemmas::cheapest_all, crate::proofs::CostLemmas::lesser_grouped))]
pub(crate) fn cheapest(entries: &[Entry]) -> Option<u64>
    requires { All IsInBounds entries.now }
    ensures value { result ≡ cheapest entries.now }
    ensures bound { IfSome result (λ cost. cost < COST_LIMIT) }
{
    let mut least = None;
    for entry in entries {
        least = lesser(least, least_cost(entry));
    }
    least
}
