//! The first constructions by Order that a walk has found.

ghost use Rattle.std.specs.Prelude.{◌≡◌, ◌-◌, ◌<◌, ◌≤◌, [], length, slice_get, option_map, vec_len, vec_capacity, IfOk};
ghost use Rattle.fare_ranking.specs.Ranking.{comes_before, first_with, is_behind, is_beyond, is_taken, is_within};
ghost use Rattle.fare_ranking.specs.Ranking.{place_of, ranked_with};

use fare_codes::MOST_BEST;
use fare_ports::NoMemory;
use fare_units::{Construction, earlier};
use std::alloc::Global;
use std::marker::Model;

/// The first constructions of a trip by Order, each with its price; a contract sees the list of them. There are at most
/// `MOST_BEST`.
#[derive(Drop)]
pub struct BestList {
    found: Vec<(Construction, u64)>,
}

impl Model for BestList {
    ghost use Rattle.std.specs.Prelude.{◌<◌, ◌≤◌, vec_len, vec_capacity};
    ghost use Rattle.fare_rules.specs.FirstK.{Priced};
    ghost use Rattle.std.specs.Prelude.{List};
    ghost use Rattle.fare_codes.specs.declared.limits.TheConstants.{MOST_BEST};

    ghost Value = { List Priced };

    ghost view = { λ b. b.found.items };

    ghost invariant = { λ b. (vec_len b.found ≤ MOST_BEST) × (MOST_BEST < vec_capacity b.found) };
}

impl BestList {
    /// No construction, with the room for all that may come.
    pub fn new(alloc: Global) -> Result<BestList, NoMemory>
        ensures { IfOk result (λ found. found ≡ []) }
    {
        Ok(BestList {
            found: Vec::with_capacity(alloc, MOST_BEST + 1)?,
        })
    }

    /// How many there are.
    pub fn len(&self) -> usize
        ensures value { result ≡ length self.now }
        ensures few { result ≤ MOST_BEST }
    {
        self.found.len()
    }

    /// The construction at a place, from 0, with its price; nothing exactly where the place is not below `len`.
    pub fn get(&self, i: usize) -> Option<(&Construction, u64)>
        ensures { option_map (λ found. (found.0.now, found.1)) result ≡ slice_get self.now i }
    {
        match self.found.get(i) {
            None => None,
            Some((parts, price)) => Some((parts, *price)),
        }
    }

    /// Takes a construction with its price, and keeps the first `k` by Order.
    pub fn insert(&mut self, k: usize, parts: Construction, price: u64)
        requires { k ≤ MOST_BEST }
        ensures { self.new ≡ first_with k (parts, price) self.old }
    {
        put(&mut self.found, parts, price);
        self.found.truncate(k);
    }

    /// The `k`th with its price.
    fn last_wanted(&self, k: usize) -> Option<(&Construction, u64)>
        ensures { option_map (λ found. (found.0.now, found.1)) result ≡ slice_get self.now (k - 1) }
    {
        self.get(k.saturating_sub(1))
    }

    /// The price of the `k`th.
    pub fn price_of(&self, k: usize) -> Option<u64>
        ensures { result ≡ option_map (λ found. found.1) (slice_get self.now (k - 1)) }
    {
        match self.last_wanted(k) {
            None => None,
            Some((_, price)) => Some(price),
        }
    }

    /// Whether the `k`th costs less than a floor.
    pub fn is_beyond(&self, k: usize, floor: u64) -> bool
        ensures { result ≡ is_beyond k self.now floor }
    {
        match self.last_wanted(k) {
            None => false,
            Some((_, price)) => price < floor,
        }
    }

    /// Whether the `k`th is before some parts at a floor.
    pub fn is_behind(&self, k: usize, front: &Construction, floor: u64) -> bool
        ensures { result ≡ is_behind k self.now front.now floor }
    {
        match self.last_wanted(k) {
            None => false,
            Some((parts, price)) => earlier(parts, price, front, floor),
        }
    }

    /// Whether there is a `k`th, and it costs no more than a limit.
    pub fn is_within(&self, k: usize, limit: u64) -> bool
        ensures { result ≡ is_within k self.now limit }
    {
        match self.last_wanted(k) {
            None => false,
            Some((_, price)) => price <= limit,
        }
    }
}

/// Puts a construction where it stands by Order, unless it is there.
#[tactic(auto, using(crate::proofs::RankingLemmas::put_here, crate::proofs::RankingLemmas::stays))]
fn put(found: &mut Vec<(Construction, u64)>, parts: Construction, price: u64)
    requires { vec_len found.old < vec_capacity found.old }
    ensures items { found.new.items ≡ ranked_with comes_before (parts, price) found.old.items }
    ensures room { vec_capacity found.old ≤ vec_capacity found.new }
{
    let place = place_of(found, &parts, price);
    if is_taken(found, place, &parts, price) {
        return;
    }
    let _room = found.insert(place, (parts, price));
}

/// How many of some constructions stand before another, from the front on.
fn place_of(found: &[(Construction, u64)], parts: &Construction, price: u64) -> usize
    ensures value { result ≡ place_of comes_before (parts.now, price) found.now }
    ensures within { result ≤ length found.now }
{
    for (place, (one, cost)) in found.iter().enumerate() {
        if !earlier(one, *cost, parts, price) {
            return place;
        }
    }
    found.len()
}

/// Whether what stands at a place is not behind a construction.
fn is_taken(found: &[(Construction, u64)], place: usize, parts: &Construction, price: u64) -> bool
    ensures { result ≡ is_taken comes_before (parts.now, price) (slice_get found.now place) }
{
    match found.get(place) {
        None => false,
        Some((one, cost)) => !earlier(parts, price, one, *cost),
    }
}
