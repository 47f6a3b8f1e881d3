//! Each public call, over ordinary keys and over keys that share a slot.

use crate::hashed::hashes_of;
use crate::places::{Places, places_of};
use crate::slots::Slots;
use crate::*;
use fare_codes::{City, Indicator, RuleId};
use sharing::SHARING;
use std::alloc::Global;
use std::marker::Sync;
use std::process::Abort;
use std::test::Fail;
use std::thread::Threads;

mod sharing;

impl Keyed for Key {
    ghost use Rattle.std.specs.Prelude.{true};

    ghost key_of = { λ key. key };

    ghost holds_of = { λ key. true };

    fn key(&self) -> Key {
        *self
    }

    fn has(&self, key: &Key) -> bool {
        key == self
    }
}

fn city(rt: &impl Abort, code: [u8; 3]) -> City {
    City::read(&code).expect(rt, "a city")
}

#[test]
fn finds_places(rt: HostRuntime) -> Result<(), Fail> {
    let (london, rome) = (city(&rt, *b"LON"), city(&rt, *b"ROM"));
    let mut keys = Vec::new(rt.alloc());
    keys.push(Key::ticketed(london, rome))?;
    keys.push(Key::permitted(london, rome, Indicator::EH))?;
    keys.push(Key::extra(london, rome, Indicator::EH, None))?;
    keys.push(Key::ticketed(rome, london))?;
    let index = Index::of(&rt, rt.alloc(), keys)?;
    assert_eq!(rt; index.first(&Key::ticketed(london, rome)), Some(0));
    assert_eq!(rt;
        index.first(&Key::permitted(rome, london, Indicator::EH)),
        Some(1)
    );
    assert_eq!(rt;
        index.first(&Key::extra(rome, london, Indicator::EH, None)),
        Some(2)
    );
    assert_eq!(rt;
        index.first(&Key::extra(rome, london, Indicator::EH, Some(rome))),
        None
    );
    Ok(())
}

#[test]
fn finds_equal_places(rt: HostRuntime) -> Result<(), Fail> {
    let (london, rome) = (city(&rt, *b"LON"), city(&rt, *b"ROM"));
    let mut keys = Vec::new(rt.alloc());
    keys.push(Key::City(rome))?;
    keys.push(Key::ticketed(london, rome))?;
    keys.push(Key::City(london))?;
    keys.push(Key::ticketed(rome, london))?;
    let index = Index::of(&rt, rt.alloc(), keys)?;
    assert_eq!(rt; index.first_at(1), Some(1));
    assert_eq!(rt; index.first_at(3), Some(1));
    assert_eq!(rt; index.next(1), Some(3));
    assert_eq!(rt; index.next(3), None);
    Ok(())
}

/// The key of a city, those of rules that share a slot by their hash, and the first of those once more.
fn sharing_keys(alloc: Global, first: City) -> Result<Vec<Key>, Fail> {
    let mut keys = Vec::new(alloc);
    keys.push(Key::City(first))?;
    for text in SHARING.iter() {
        let id = RuleId::read(text).ok_or("a rule's id")?;
        keys.push(Key::Rule(id))?;
    }
    let id = RuleId::read(&SHARING[0]).ok_or("a rule's id")?;
    keys.push(Key::Rule(id))?;
    Ok(keys)
}

/// The places of keys, by their hashes.
fn hashed_places<R: Threads + Sync>(rt: &R, alloc: Global, keys: &[Key]) -> Result<Places, Fail> {
    let hashes = hashes_of(rt, alloc, keys)?;
    Ok(places_of(alloc, hashes.as_slice())?)
}

#[test]
fn goes_by_order_where_many_share_a_slot(rt: HostRuntime) -> Result<(), Fail> {
    let london = city(&rt, *b"LON");
    let few = [Key::City(london)];
    let many = sharing_keys(rt.alloc(), london)?;
    let by_hash = hashed_places(&rt, rt.alloc(), &few)?;
    let by_order = hashed_places(&rt, rt.alloc(), many.as_slice())?;
    assert!(rt; matches!(by_hash.slots, Slots::Hashed(_)));
    assert!(rt; matches!(by_order.slots, Slots::Ranked(_)));
    Ok(())
}

#[test]
fn finds_places_by_order(rt: HostRuntime) -> Result<(), Fail> {
    let london = city(&rt, *b"LON");
    let keys = sharing_keys(rt.alloc(), london)?;
    assert_eq!(rt; keys.len(), 202);
    let index = Index::of(&rt, rt.alloc(), keys)?;
    let id = RuleId::read(&SHARING[150]).ok_or("a rule's id")?;
    assert_eq!(rt; index.first(&Key::Rule(id)), Some(151));
    assert_eq!(rt; index.first(&Key::City(london)), Some(0));
    assert_eq!(rt; index.first(&Key::City(city(&rt, *b"ROM"))), None);
    assert_eq!(rt; index.next(1), Some(201));
    assert_eq!(rt; index.next(151), None);
    assert_eq!(rt; index.first_at(200), Some(200));
    assert_eq!(rt; index.first_at(201), Some(1));
    Ok(())
}
