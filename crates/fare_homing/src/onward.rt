//! Onward: what is behind each point of a trip where no unit is open at least, by the fares that are barred: those whose
//! rules don't combine end on end with the parts before.

ghost use Rattle.std.specs.Prelude.{◌≡◌, ◌<◌, ℕ, [], Option, position, slice_index_or};
ghost use Rattle.fare_trip.specs.Itinerary.{Itinerary};
ghost use Rattle.fare_tariff.specs.Tariff.{Tariff};
ghost use Rattle.fare_bounds.specs.Covers.{rest_at};
ghost use Rattle.fare_homing.specs.HomingRows.{AreRests};
ghost use Rattle.fare_legs.specs.Barred.{is_of_rule};
ghost use Rattle.fare_homing.specs.Onward.{AreOnwards, next_by, next_set, no_onward};

use fare_codes::RuleId;
use fare_legs::{Floor, MOST_RULES, MOST_SETS, is_of_rule};
use fare_rules::MOST_POINTS;
use fare_tariff::Edition;

/// What is behind each point of a trip at least where no unit is open, and some fares are barred.
#[derive(Clone, Copy)]
pub struct Onward {
    /// A fare of each rule that is barred; 0 at the places that are free.
    pub barred: [u32; MOST_RULES],
    /// All that is behind the point.
    pub rest: [Floor; MOST_POINTS],
    /// By the place of a rule, that of the numbers behind a part of it.
    pub next: [u8; MOST_RULES],
}

/// The same by what is barred.
#[derive(Clone, Copy)]
pub struct Onwards {
    /// A fare of each rule; 0 at the places that are free.
    pub rules: [u32; MOST_RULES],
    /// The numbers: at first those where nothing is barred.
    pub sets: [Onward; MOST_SETS],
}

/// The place of a rule among those of some fares.
fn place_of(edition: &Edition, fares: &[u32], rule: Option<RuleId>) -> Option<usize>
    ensures { result ≡ position (is_of_rule edition.now rule) fares.now }
{
    fares
        .iter()
        .position(|number| is_of_rule(edition, rule, *number))
}

/// The place to which one leads by the place of a rule; the same where the rule has none.
fn step_at(next: &[u8; MOST_RULES], place: usize, set: usize) -> usize
    ensures { result ≡ slice_index_or next.now place set }
{
    if place < MOST_RULES {
        next[place] as usize
    } else {
        set
    }
}

/// The same by the place of the numbers.
fn next_in(sets: &[Onward; MOST_SETS], set: usize, place: usize) -> usize
    requires { set < MOST_SETS }
    ensures { result ≡ slice_index_or (slice_index_or sets.now set no_onward).next place set }
{
    step_at(&sets[set].next, place, set)
}

/// The place of the numbers behind a part of a rule, by that of the numbers before it.
fn next_by(edition: &Edition, onwards: &Onwards, set: usize, rule: Option<RuleId>) -> usize
    requires { set < MOST_SETS }
    ensures { result ≡ next_by edition.now onwards.now set rule }
{
    match place_of(edition, onwards.rules.as_slice(), rule) {
        None => set,
        Some(place) => next_in(&onwards.sets, set, place),
    }
}

/// The same behind a part of the fare of a record number.
pub fn next_set(edition: &Edition, onwards: &Onwards, set: usize, number: u32) -> usize
    requires { set < MOST_SETS }
    ensures { result ≡ next_set edition.now onwards.now set number }
{
    let Some(fare) = edition.fare_at(number) else {
        return set;
    };
    next_by(edition, onwards, set, fare.rule)
}

/// The numbers of a trip by those where nothing is barred alone.
pub(crate) fn without_barred(rest: &[Floor; MOST_POINTS]) -> Onwards
    ensures { (tariff : Tariff) (trip : Itinerary) (begun jaw : ℕ → ℕ → ℕ → Option ℕ) (whole : ℕ → ℕ → Option ℕ)
        → AreRests tariff trip [] begun jaw whole (rest_at rest.now) → AreOnwards tariff trip begun jaw result }
{
    let all = Onward {
        barred: [0; MOST_RULES],
        rest: *rest,
        next: [0; MOST_RULES],
    };
    Onwards {
        rules: [0; MOST_RULES],
        sets: [all; MOST_SETS],
    }
}
