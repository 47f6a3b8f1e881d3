//! First parts of constructions, part by part.

ghost use Rattle.std.specs.Prelude.{◌≡◌, ◌≤◌, ◌<◌, ◌++◌, ◌∷◌, [], length, true};
ghost use Rattle.fare_rules.specs.Construction.{end_of, greatest_unit, places};
ghost use Rattle.fare_units.specs.Walk.{next_start};
ghost use Rattle.fare_floors.specs.Floors.{IsMadeWith, IsNext, may_follow};

use crate::refusals::is_hopeless;
use fare_component::Table;
use fare_rules::Part;
use fare_trip::Trip;
use fare_units::{Construction, MOST_PARTS, is_shut_unit, part_at, start_of, unit_count};
use std::marker::Model;

/// The first parts of a construction. They take no memory.
#[derive(Drop)]
pub struct Partial {
    parts: Construction,
}

impl Model for Partial {
    ghost use Rattle.std.specs.Prelude.{List};
    ghost use Rattle.fare_rules.specs.declared.part.Part.{Part};

    ghost Value = { List Part };

    ghost view = { λ p. p.parts };
}

impl Partial {
    /// No part: what every construction begins with.
    pub fn new() -> Partial
        ensures { result ≡ [] }
    {
        Partial {
            parts: Construction::new(),
        }
    }

    /// Its parts, in the order of travel.
    pub fn parts(&self) -> &[Part]
        ensures parts { result.now ≡ self.now }
        ensures few { length result.now ≤ MOST_PARTS }
    {
        self.parts.parts()
    }

    /// The same parts once more.
    pub fn copy(&self) -> Partial
        ensures { result ≡ self.now }
    {
        Partial {
            parts: self.to_construction(),
        }
    }

    /// Its parts as a construction.
    pub fn construction(&self) -> &Construction
        ensures { result.now ≡ self.now }
    {
        &self.parts
    }

    /// Its parts as a construction of its own.
    pub fn to_construction(&self) -> Construction
        ensures { result ≡ self.now }
    {
        copied(self.parts())
    }

    /// The point where its last part ends; 0 where it has none.
    pub fn end(&self) -> usize
        ensures value { result ≡ end_of self.now (length self.now) }
        ensures small { result < 256 }
    {
        let parts = self.parts();
        part_at(parts, parts.len()).end as usize
    }

    /// Where a part that comes after it starts.
    pub fn next_start(&self, trip: &Trip) -> usize
        ensures value { result ≡ next_start trip.now self.now }
        ensures small { result ≤ 256 }
    {
        let parts = self.parts();
        start_of(trip, parts, parts.len() + 1)
    }

    /// The greatest unit number of its parts; 0 where it has none.
    pub fn greatest_unit(&self) -> usize
        ensures value { result ≡ greatest_unit self.now (places self.now) }
        ensures small { result ≤ 255 }
    {
        unit_count(&self.parts)
    }

    /// Whether a part may come after it: the part ends above its start and within the trip, and its unit's number is in
    /// order.
    fn may_follow(&self, trip: &Trip, part: Part) -> bool
        ensures { result ≡ may_follow trip.now self.now part }
    {
        self.next_start(trip) < part.end as usize
            && part.end as usize <= trip.count()
            && part.unit as usize <= self.greatest_unit() + 1
    }

    /// The parts with one more at their end; nothing only where that longer list has no completion.
    pub fn next(&self, table: &Table, part: Part) -> Option<Partial>
        requires made { IsMadeWith table.now self.now }
        ensures { IsNext table.now self.now part result }
    {
        let trip = table.trip();
        if !self.may_follow(trip, part) {
            return None;
        }
        if is_shut_unit(table.edition(), trip, self.parts(), part.unit as usize) {
            return None;
        }
        let longer = self.longer(table, part);
        if is_hopeless(table, &longer, part.unit) {
            return None;
        }
        Some(Partial { parts: longer })
    }

    /// The parts with one more at their end, which may come after them.
    fn longer(&self, table: &Table, part: Part) -> Construction
        requires made { IsMadeWith table.now self.now }
        requires follows { may_follow table.now.trip self.now part ≡ true }
        ensures parts { result ≡ self.now ++ part ∷ [] }
        ensures made { IsMadeWith table.now result }
    {
        let _sectors = table.trip().count();
        with_last(self.parts(), part)
    }
}

/// A construction of some parts.
fn copied(parts: &[Part]) -> Construction
    requires { length parts.now ≤ MOST_PARTS }
    ensures { result ≡ parts.now }
{
    let mut copied = Construction::new();
    for part in parts {
        let _room = copied.try_push(*part);
    }
    copied
}

/// A construction of some parts with one more at their end.
pub(crate) fn with_last(parts: &[Part], part: Part) -> Construction
    requires { length parts.now < MOST_PARTS }
    ensures { result ≡ parts.now ++ part ∷ [] }
{
    let mut longer = copied(parts);
    let _room = longer.try_push(part);
    longer
}
