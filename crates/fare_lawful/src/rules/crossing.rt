//! The rule that no unit crosses another.

ghost use Rattle.std.specs.Prelude.{◌≡◌, ◌<◌, ◌≤◌, length};
ghost use Rattle.fare_rules.specs.Shape.{is_same_unit, is_begun_before, is_straddled, is_crossed, crossed};

use crate::limits::MOST_PARTS;
use crate::parts::places::is_same_unit;
use crate::rules::first::first_that;
use fare_rules::Part;

/// Whether a part `c` belongs to another unit than `b`, and some part before `b` belongs to the unit of `c`.
fn is_begun_before(parts: &[Part], b: usize, c: usize) -> bool
    ensures { result ≡ is_begun_before parts.now b c }
{
    !is_same_unit(parts, c, b) && (1..b).any(|a| is_same_unit(parts, c, a))
}

/// Whether a part `b` belongs to the unit of `d`, and between them stands one of another unit that began before `b`.
fn is_straddled(parts: &[Part], d: usize, b: usize) -> bool
    requires before { b < d }
    ensures { result ≡ is_straddled parts.now d b }
{
    is_same_unit(parts, d, b) && (b + 1..d).any(|c| is_begun_before(parts, b, c))
}

/// Whether a part crosses another unit.
pub fn is_crossed(parts: &[Part], d: usize) -> bool
    ensures { result ≡ is_crossed parts.now d }
{
    (1..d).any(|b| is_straddled(parts, d, b))
}

/// The first part that crosses another unit.
pub(crate) fn crossed(parts: &[Part]) -> Option<u8>
    requires few { length parts.now ≤ MOST_PARTS }
    ensures { result ≡ crossed parts.now }
{
    first_that(parts.len(), |k| is_crossed(parts, k))
}
