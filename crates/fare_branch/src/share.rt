//! Shares of the constructions: those of three or more parts are shared out by their first three, and shorter ones
//! belong to each share. So what lies under one first part is shared out too.

ghost use Rattle.std.specs.Prelude.{◌≡◌, ◌<◌};
ghost use Rattle.fare_branch.specs.Shares.{is_elsewhere, mark, marked};

use fare_rules::Part;
use fare_units::part_at;

/// By how many of its first parts a construction belongs to a share.
pub(crate) const MARKED_PARTS: usize = 3;

/// How many marks there are. It is a prime number.
pub const MARKS: u64 = 65_521;

/// What a mark is multiplied by. It is about `MARKS` by the golden ratio, so that fares whose record numbers follow one
/// another have marks far from one another.
pub const STRIDE: u64 = 40_503;

/// One of some shares.
#[derive(Clone, Copy, Debug)]
pub struct Share {
    /// Its number, from 0.
    pub number: u32,
    /// How many shares there are.
    pub count: u32,
}

/// The only one of one share.
pub(crate) const WHOLE: Share = Share {
    number: 0,
    count: 1,
};

/// The mark of some parts with one more.
fn marked(before: u64, part: Part) -> u64
    requires { before < MARKS }
    ensures mark { result ≡ marked before part }
    ensures small { result < MARKS }
{
    let place = before + part.end as u64 * 256 + part.unit as u64;
    (place * STRIDE + part.fare as u64) * STRIDE % MARKS
}

/// The mark of some parts, by the first three of them.
fn mark(parts: &[Part]) -> u64
    ensures mark { result ≡ mark parts.now }
    ensures small { result < MARKS }
{
    let first = marked(0, part_at(parts, 1));
    let second = marked(first, part_at(parts, 2));
    marked(second, part_at(parts, 3))
}

/// Whether some parts are three or more, and belong to another share than one.
pub(crate) fn is_elsewhere(share: Share, parts: &[Part]) -> bool
    ensures { result ≡ is_elsewhere share parts.now }
{
    parts.len() >= MARKED_PARTS && mark(parts) * share.count as u64 / MARKS != share.number as u64
}
