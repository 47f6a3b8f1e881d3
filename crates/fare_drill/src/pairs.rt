//! The unordered pairs of numbers, first by the lesser one and then by the greater one.

ghost use Rattle.std.specs.Prelude.{◌≡◌, ◌<◌, ◌≤◌, ◌++◌, OnOk, IfOk};
ghost use Rattle.fare_drill.specs.Miles.{pairs, pairs_from};

use crate::pair::Pair;
use fare_codes::MOST_SECTORS;
use fare_ports::NoMemory;
use std::alloc::Global;

/// The pairs of numbers below a count.
pub(crate) fn pairs(alloc: Global, count: u32) -> Result<Vec<Pair>, NoMemory>
    requires { count ≤ MOST_SECTORS }
    ensures { IfOk result (λ all. all.items ≡ pairs count) }
{
    let room = count as usize * MOST_SECTORS / 2;
    let mut pairs = Vec::with_capacity(alloc, room)?;
    for first in 0..count {
        push_from(&mut pairs, count, first)?;
    }
    Ok(pairs)
}

/// Appends the pairs of a number and each greater one.
fn push_from(pairs: &mut Vec<Pair>, count: u32, first: u32) -> Result<(), NoMemory>
    requires all { count ≤ MOST_SECTORS }
    requires one { first < count }
    ensures { OnOk result (pairs.new.items ≡ pairs.old.items ++ pairs_from count first) }
{
    for second in first + 1..count {
        pairs.push(Pair { first, second })?;
    }
    Ok(())
}
