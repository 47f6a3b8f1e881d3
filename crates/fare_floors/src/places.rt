//! Places: the first and the last part of a unit among some parts.

ghost use Rattle.std.specs.Prelude.{◌≡◌, ◌≤◌, length};
ghost use Rattle.fare_rules.specs.Construction.{first_of, last_of, own};

use fare_rules::Part;
use fare_units::part_at;

/// The first of the places of a unit; 0 where there is none.
#[tactic(auto, using(crate::proofs::StackRowLemmas::own_here, crate::proofs::StackRowLemmas::own_over, crate::proofs::StackRowLemmas::own_done), unfolding(fare_rules::specs::Construction::own))]
pub(crate) fn first_place(parts: &[Part], unit: usize) -> usize
    ensures value { result ≡ first_of (own parts.now unit) }
    ensures within { result ≤ length parts.now }
{
    for k in 1..parts.len() + 1 {
        if part_at(parts, k).unit as usize == unit {
            return k;
        }
    }
    0
}

/// The last of the places of a unit; 0 where there is none.
#[tactic(auto, using(crate::proofs::EndingLemmas::last_of_all, crate::proofs::EndingLemmas::last_here, crate::proofs::EndingLemmas::last_over, crate::proofs::EndingLemmas::last_done), unfolding(fare_rules::specs::Construction::own))]
pub(crate) fn last_place(parts: &[Part], unit: usize) -> usize
    ensures value { result ≡ last_of (own parts.now unit) }
    ensures within { result ≤ length parts.now }
{
    let mut last = 0;
    for k in 1..parts.len() + 1 {
        if part_at(parts, k).unit as usize != unit {
            continue;
        }
        last = k;
    }
    last
}
