//! The earliest of what was found.

ghost use Rattle.std.specs.Prelude.{◌≡◌, ◌≤◌, length};
ghost use Rattle.fare_split.specs.Rows.{IsEarliest, earlier_of, is_earlier};

use fare_rules::Part;
use fare_units::{Construction, MOST_PARTS, earlier};

/// A construction that was found, with its price.
pub(crate) type Found = Option<(Construction, u64)>;

/// A construction of some parts.
fn copied(parts: &[Part]) -> Construction
    requires { length parts.now ≤ MOST_PARTS }
    ensures { result ≡ parts.now }
{
    let mut copied = Construction::new();
    for part in parts {
        let _room = copied.try_push(*part);
    }
    copied
}

/// Whether a construction with its price is before the best so far, or there is none.
fn is_earlier(parts: &Construction, price: u64, best: &Found) -> bool
    ensures { result ≡ is_earlier parts.now price best.now }
{
    match best {
        None => true,
        Some((first, least)) => earlier(parts, price, first, *least),
    }
}

/// What was found, where it is before the best so far or is the first, and else the best so far.
pub(crate) fn earlier_of(best: Found, found: &Found) -> Found
    ensures { result ≡ earlier_of best found.now }
{
    match found {
        Some((parts, price)) if is_earlier(parts, *price, &best) => Some((
            copied(parts.parts()),
            *price,
        )),
        _ => best,
    }
}

/// The earliest of what was found in pieces; nothing where nothing was found in any.
#[tactic(auto, using(crate::proofs::EarliestLemmas::earliest_more, crate::proofs::EarliestLemmas::earliest_none))]
pub(crate) fn earliest(results: &[Found]) -> Found
    ensures { IsEarliest results.now result }
{
    let mut best = None;
    for result in results {
        best = earlier_of(best, result);
    }
    best
}
