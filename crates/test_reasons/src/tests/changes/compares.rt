//! What trips cost in two editions.

ghost use Rattle.std.specs.Prelude.{◌<◌};

use super::costs::COSTS;
use fare_changes::{Comparer, Unwatched, compare_text, items_of};
use fare_csv::read_edition;
use fare_trip::{Member, TripFault};
use fare_units::PlainQuoter;
use std::alloc::Global;
use std::test::Fail;
use std::thread::Threads;

/// Two editions, the text of a batch, and what its items cost.
pub struct Cost {
    pub old: &'static str,
    pub new: &'static str,
    pub items: &'static str,
    pub text: &'static str,
}

/// Whether that is the text of what the items cost, on so many threads.
fn holds<R: Threads + Sync>(
    rt: &R,
    alloc: Global,
    cost: &Cost,
    threads: usize,
) -> Result<bool, Fail>
    requires { 0 < threads }
{
    let old = read_edition(rt, alloc, cost.old.as_bytes())?;
    let new = read_edition(rt, alloc, cost.new.as_bytes())?;
    let items = items_of(alloc, cost.items.as_bytes())?;
    let comparer = Comparer {
        old: &old,
        new: &new,
        quoter: &PlainQuoter,
        threads,
    };
    let text = compare_text(rt, alloc, &comparer, items.as_slice(), &mut Unwatched)?;
    Ok(text.as_slice() == cost.text.as_bytes())
}

#[test]
fn costs_are_told_on_one_thread_and_on_three(rt: HostRuntime) -> Result<(), Fail> {
    for cost in &COSTS {
        assert!(rt; holds(&rt, rt.alloc(), cost, 1)?, "{}", cost.text);
        assert!(rt; holds(&rt, rt.alloc(), cost, 3)?, "{}", cost.text);
    }
    Ok(())
}

#[test]
fn what_is_no_array_is_refused(rt: HostRuntime) -> Result<(), Fail> {
    let object = items_of(rt.alloc(), b"{}").err();
    assert!(rt; object == Some(TripFault::Bad(Member::Trip, 0)));
    let junk = items_of(rt.alloc(), b"[").err();
    assert!(rt; junk == Some(TripFault::NotJson));
    Ok(())
}
