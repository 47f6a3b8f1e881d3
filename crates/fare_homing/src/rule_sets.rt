//! Rule sets: the rules of a trip's fares, and the sets of them that the parts before a point may bar.

ghost use Rattle.std.specs.Prelude.{◌<◌};

use fare_component::Table;
use fare_legs::{MOST_RULES, MOST_SETS, rules_of};
use fare_tariff::Edition;

/// Rules, and the sets of them that parts may bar. A set is the bits of its rules' places.
#[derive(Clone, Copy)]
pub(crate) struct RuleSets {
    /// A fare of each rule; 0 at the places that are free.
    pub(crate) rules: [u32; MOST_RULES],
    /// By the place of a rule, those that don't combine end on end with it.
    clashes: [u16; MOST_RULES],
    /// The sets, of which the first is empty.
    sets: [u16; MOST_SETS],
    count: usize,
}

/// The set of one rule.
fn only(place: usize) -> u16
    requires { place < MOST_RULES }
{
    1 << place
}

/// Whether a rule is in a set.
fn holds(set: u16, place: usize) -> bool
    requires { place < MOST_RULES }
{
    set & only(place) != 0
}

/// Whether the rules of two fares, where they are there, don't combine end on end.
fn clash(edition: &Edition, one: u32, other: u32) -> bool {
    match (edition.fare_at(one), edition.fare_at(other)) {
        (Some(one), Some(other)) => !edition.ends_ok(one.rule, other.rule),
        _ => false,
    }
}

/// Those of some rules that don't combine end on end with that of a fare.
fn clashes_with(edition: &Edition, rules: &[u32; MOST_RULES], number: u32) -> u16 {
    let mut set = 0;
    for place in 0..MOST_RULES {
        if clash(edition, number, rules[place]) {
            set |= only(place);
        }
    }
    set
}

/// The same by the place of each of them.
fn clashes_of(edition: &Edition, rules: &[u32; MOST_RULES]) -> [u16; MOST_RULES] {
    let mut clashes = [0; MOST_RULES];
    for place in 0..MOST_RULES {
        clashes[place] = clashes_with(edition, rules, rules[place]);
    }
    clashes
}

impl RuleSets {
    /// Puts a set to those found, unless it is there already or there are too many.
    fn put(&mut self, set: u16) {
        if self.count >= MOST_SETS || self.sets.iter().any(|found| *found == set) {
            return;
        }
        self.sets[self.count] = set;
        self.count += 1;
    }

    /// Puts those to which the parts of rules lead that aren't in a set.
    fn put_behind(&mut self, set: u16) {
        for place in 0..MOST_RULES {
            if !holds(set, place) {
                self.put(set | self.clashes[place]);
            }
        }
    }

    /// Puts all that parts may bar, those that fewer parts lead to first.
    fn put_all(&mut self) {
        for place in 0..MOST_SETS {
            if place < self.count {
                self.put_behind(self.sets[place]);
            }
        }
    }

    /// How many sets there are.
    pub(crate) fn count(&self) -> usize {
        self.count
    }

    /// Whether the rules combine end on end with each other, and each with itself.
    pub(crate) fn bar_nothing(&self) -> bool {
        self.clashes.iter().all(|set| *set == 0)
    }

    /// A fare of each rule of a set; 0 at the places that are free.
    pub(crate) fn fares(&self, set: usize) -> [u32; MOST_RULES]
        requires { set < MOST_SETS }
    {
        let mut fares = [0; MOST_RULES];
        let mut count = 0;
        for place in 0..MOST_RULES {
            if holds(self.sets[set], place) {
                fares[count] = self.rules[place];
                count += 1;
            }
        }
        fares
    }

    /// The place of the set behind a part of a rule, by that of the set before it; the same where it isn't there.
    pub(crate) fn behind(&self, set: usize, place: usize) -> usize
        requires set { set < MOST_SETS }
        requires place { place < MOST_RULES }
        ensures { result < MOST_SETS }
    {
        let after = self.sets[set] | self.clashes[place];
        self.sets
            .iter()
            .position(|found| *found == after)
            .unwrap_or(set)
    }
}

/// The sets of rules that parts of a trip may bar.
pub(crate) fn rule_sets(table: &Table) -> RuleSets {
    let rules = rules_of(table);
    let mut sets = RuleSets {
        rules,
        clashes: clashes_of(table.edition(), &rules),
        sets: [0; MOST_SETS],
        count: 1,
    };
    sets.put_all();
    sets
}
