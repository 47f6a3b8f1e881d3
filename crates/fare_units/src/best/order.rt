//! Order: which of two constructions is before the other.

ghost use Rattle.std.specs.Prelude.{◌≡◌, ◌≤◌, length, drop};
ghost use Rattle.fare_rules.specs.Order.{compare_numbers, compare_parts, tie, is_before};

use crate::construction::Construction;
use fare_rules::Part;
use std::cmp::Ordering;

/// How two numbers lie to each other.
fn compare_numbers(a: u32, b: u32) -> Ordering
    ensures { result ≡ compare_numbers a b }
{
    if a < b {
        Ordering::Less
    } else if b < a {
        Ordering::Greater
    } else {
        Ordering::Equal
    }
}

/// How two parts at one place lie to each other: by the greater end, then the lesser record number, then the lesser
/// unit.
#[tactic(auto, unfolding(fare_rules::specs::Order::compare_parts))]
fn compare_parts(x: &Part, y: &Part) -> Ordering
    ensures { result ≡ compare_parts x.now y.now }
{
    match compare_numbers(y.end as u32, x.end as u32) {
        Ordering::Less => Ordering::Less,
        Ordering::Greater => Ordering::Greater,
        Ordering::Equal => match compare_numbers(x.fare, y.fare) {
            Ordering::Less => Ordering::Less,
            Ordering::Greater => Ordering::Greater,
            Ordering::Equal => compare_numbers(x.unit as u32, y.unit as u32),
        },
    }
}

/// How two lists of parts lie to each other: by their first differing part.
#[tactic(auto, using(crate::proofs::OrderLemmas::tie_past))]
fn tie(xs: &[Part], ys: &[Part]) -> Ordering
    ensures { result ≡ tie xs.now ys.now }
{
    for i in 0..xs.len() {
        if i >= ys.len() {
            return Ordering::Equal;
        }
        match compare_parts(&xs[i], &ys[i]) {
            Ordering::Equal => {}
            decided => return decided,
        }
    }
    Ordering::Equal
}

/// Whether a construction `a` of price `pa` is before another one: its price is less, or at equal prices its first
/// differing part has the greater end, then the lesser record number of the fare, then the lesser unit number. At equal
/// prices it is not where no part differs up to the end of the shorter list.
#[tactic(auto, unfolding(fare_rules::specs::Order::is_before))]
pub fn earlier(a: &Construction, pa: u64, b: &Construction, pb: u64) -> bool
    ensures { result ≡ is_before a.now pa b.now pb }
{
    if pa < pb {
        return true;
    }
    if pb < pa {
        return false;
    }
    match tie(a.parts(), b.parts()) {
        Ordering::Less => true,
        _ => false,
    }
}
