//! Keepers in memory.

use super::is_kept;
use fare_outside::*;
use std::alloc::Global;
use std::test::Fail;

/// Puts another body in the place of one, and answers what stands there and how many there are.
fn replaced(alloc: Global) -> Result<(Vec<u8>, u64), Fail> {
    let mut store = PlainKeeper::new(Bodies::new(alloc));
    store.open(alloc, "editions")?;
    store.append(alloc, b"one")?;
    store.replace(alloc, 1, b"another")?;
    let body = store.load(alloc, 1)?;
    let count = store.len(alloc)?;
    Ok((body, count))
}

#[test]
fn a_keeper_answers_by_place(rt: HostRuntime) -> Result<(), Fail> {
    let (body, count) = replaced(rt.alloc())?;
    assert!(rt; body.as_slice() == b"another".as_slice());
    assert!(rt; count == 1);
    Ok(())
}

/// The first, the third and the fourth call of a keeper fail, the third though it appends its body.
static LISTED: [FailAt; 3] = [
    FailAt {
        call: 1,
        kept: false,
    },
    FailAt {
        call: 3,
        kept: true,
    },
    FailAt {
        call: 4,
        kept: false,
    },
];

fn failing_keeper(alloc: Global) -> Result<MemKeeper, Fail> {
    let fail = Vec::from_slice(alloc, &LISTED)?;
    Ok(MemKeeper::new(Bodies::new(alloc), fail))
}

/// Whether a keeper fails to append two bodies, and then takes a third one.
fn takes_the_third(store: &mut MemKeeper, alloc: Global) -> Result<bool, Fail> {
    store.open(alloc, "editions")?;
    let one = store.append(alloc, b"one");
    let two = store.append(alloc, b"two");
    store.append(alloc, b"three")?;
    Ok(one == Err(KeepFault::Failed) && two == Err(KeepFault::Failed))
}

/// Whether the second of two bodies is that one.
fn is_second_of_two(store: &mut MemKeeper, alloc: Global, body: &[u8]) -> Result<bool, Fail> {
    store.open(alloc, "editions")?;
    if store.len(alloc)? != 2 {
        return Ok(false);
    }
    let kept = store.load(alloc, 2)?;
    Ok(kept.as_slice() == body)
}

#[test]
fn a_listed_call_of_a_keeper_fails(rt: HostRuntime) -> Result<(), Fail> {
    let alloc = rt.alloc();
    let mut store = failing_keeper(alloc)?;
    assert!(rt; store.open(alloc, "editions") == Err(KeepFault::Failed));
    assert!(rt; takes_the_third(&mut store, alloc)?);
    assert!(rt; is_kept(store.kept(), 0, b"one"));
    assert!(rt; is_second_of_two(&mut store, alloc, b"three")?);
    Ok(())
}
