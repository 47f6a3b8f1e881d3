//! The first ten constructions of drills, beside all that are lawful in their order.

ghost use Rattle.std.specs.Prelude.{◌≤◌};

use super::first_ten::are_those_of_all;
use fare_best::first_k;
use fare_drill::drill_input;
use std::alloc::Global;
use std::test::Fail;
use std::thread::Threads;

/// The price of the best construction of the drill of seed 15 and 16 sectors, as a separate plain program computed it.
const LONGEST_BEST: u64 = 127_961;

/// Whether the first ten of a drill are those of all that are lawful.
fn holds<R: Threads + Sync>(rt: &R, alloc: Global, seed: u32, sectors: u32) -> Result<bool, Fail>
    requires seed { seed ≤ 20 }
    requires some { 1 ≤ sectors }
    requires few { sectors ≤ 4 }
{
    let (edition, trip) = drill_input(rt, alloc, seed, sectors, 0)?;
    are_those_of_all(alloc, &edition, &trip)
}

#[test]
fn the_first_ten_of_small_drills_are_those_of_all(rt: HostRuntime) -> Result<(), Fail> {
    for seed in 1..4 {
        for sectors in 1..4 {
            assert!(rt; holds(&rt, rt.alloc(), seed, sectors)?);
        }
    }
    Ok(())
}

#[test]
fn a_drill_of_sixteen_sectors_ends(rt: HostRuntime) -> Result<(), Fail> {
    let (edition, trip) = drill_input(&rt, rt.alloc(), 15, 16, 0)?;
    let first = first_k(rt.alloc(), &edition, &trip, 10)?;
    assert_eq!(rt; first.len(), 10);
    let best = first.get(0).map(|found| found.1);
    assert_eq!(rt; best, Some(LONGEST_BEST));
    Ok(())
}
