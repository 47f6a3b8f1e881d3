//! The steps of a dive: to first parts of a piece, or from some first parts to those that one more follows, by the
//! least floor.

ghost use Rattle.std.specs.Prelude.{◌≡◌, ◌+◌, ◌<◌, ◌≤◌, [], IfSome};
ghost use Rattle.fare_trip.specs.Itinerary.{count};
ghost use Rattle.fare_component.specs.Table.{IsInBounds};
ghost use Rattle.fare_units.specs.Walk.{next_start};
ghost use Rattle.fare_floors.specs.Ahead.{IsStage};
ghost use Rattle.fare_branch.specs.Beginnings.{AreCounts};
ghost use Rattle.fare_homing.specs.Rows.{AreHomingsOf};
ghost use Rattle.fare_floors.specs.Floors.{IsMadeWith};
ghost use Rattle.fare_branch.specs.Dive.{GoesFrom, StartsIn};

use crate::barred::is_barred;
use crate::crowding::is_crowded;
use crate::pieces::{Counts, Piece, choice, choices, counts_of};
use fare_component::{Entry, Table};
use fare_floors::{Partial, Stage, ahead_of, floor_ahead, floor_with, stack_after, stack_of};
use fare_homing::Homing;
use fare_rules::Part;

/// Some first parts with their floor, where there are any.
type Step = Option<(Partial, u64)>;

/// Which floors a step may have.
#[derive(Clone, Copy)]
struct Wanted {
    /// None below this one.
    from: u64,
    /// None that is guessed to be above this one.
    most: u64,
}

impl Wanted {
    /// First those that are no dearer than what they follow, or else than the least that may come.
    fn first(from: u64, floor: Option<u64>) -> Wanted {
        Wanted {
            from,
            most: from.max(floor.unwrap_or(0)),
        }
    }

    /// Then all.
    fn then(self) -> Wanted {
        Wanted {
            from: self.from,
            most: u64::MAX,
        }
    }
}

/// Whether the floor of what was found is no more than another.
fn is_no_dearer(found: &Step, floor: u64) -> bool {
    match found {
        None => false,
        Some((_parts, least)) => *least <= floor,
    }
}

/// Finds some first parts that one more follows in place of what was found, where they can bring anything, and their
/// floor is lesser and not below a number.
#[tactic(auto, using(crate::proofs::DiveLemmas::goes_next))]
fn lesser_step(stage: &Stage, part: Part, guess: Option<u64>, wanted: Wanted, found: &mut Step)
    requires stage { IsStage stage.now.table.now stage.now.homing.now stage.now.front.now stage.now.ahead.now }
    requires found { IfSome found.old (GoesFrom stage.now.table.now stage.now.front.now) }
    ensures { IfSome found.new (GoesFrom stage.now.table.now stage.now.front.now) }
{
    let (table, homing) = (stage.table, stage.homing);
    let Some(guess) = guess else {
        return;
    };
    if wanted.most < guess || is_no_dearer(found, guess) {
        return;
    }
    let Some(longer) = stage.front.next(table, part) else {
        return;
    };
    let Some(floor) = stack_after(table, homing, &longer, &stage.ahead.floors).floor else {
        return;
    };
    if floor < wanted.from || is_no_dearer(found, floor) {
        return;
    }
    if is_crowded(table, homing, &longer) || is_barred(table, &longer) {
        return;
    }
    *found = Some((longer, floor));
}

/// The number of the first unit to which a part with an entry may come, where some units have begun: a one way fare is a
/// unit of its own.
fn first_unit(entry: &Entry, greatest: usize) -> usize {
    if entry.single.is_some() {
        greatest.saturating_add(1)
    } else {
        1
    }
}

/// Over the units of a part that ends at a point and has a fare.
fn least_by_units(stage: &Stage, end: usize, entry: &Entry, wanted: Wanted, found: &mut Step)
    requires stage { IsStage stage.now.table.now stage.now.homing.now stage.now.front.now stage.now.ahead.now }
    requires within { end ≤ count stage.now.table.now.trip }
    requires bounds { IsInBounds entry.now }
    requires found { IfSome found.old (GoesFrom stage.now.table.now stage.now.front.now) }
    ensures { IfSome found.new (GoesFrom stage.now.table.now stage.now.front.now) }
{
    let sectors = stage.table.trip().count();
    prove!(end <= sectors);
    let greatest = stage.front.greatest_unit();
    for unit in first_unit(entry, greatest)..greatest + 2 {
        let part = Part {
            end: end as u8,
            unit: unit as u8,
            fare: entry.fare,
        };
        let guess = floor_with(stage.ahead, entry, part);
        lesser_step(stage, part, guess, wanted, found);
    }
}

/// Over the entries of the span to a point.
fn least_by_entries(stage: &Stage, end: usize, wanted: Wanted, found: &mut Step)
    requires stage { IsStage stage.now.table.now stage.now.homing.now stage.now.front.now stage.now.ahead.now }
    requires rises { next_start stage.now.table.now.trip stage.now.front.now < end }
    requires within { end ≤ count stage.now.table.now.trip }
    requires found { IfSome found.old (GoesFrom stage.now.table.now stage.now.front.now) }
    ensures { IfSome found.new (GoesFrom stage.now.table.now stage.now.front.now) }
{
    let start = stage.front.next_start(stage.table.trip());
    for entry in stage.table.entries(start, end) {
        least_by_units(stage, end, entry, wanted, found);
    }
}

/// Over the points where one more part may end.
fn least_by_ends(stage: &Stage, wanted: Wanted, found: &mut Step)
    requires stage { IsStage stage.now.table.now stage.now.homing.now stage.now.front.now stage.now.ahead.now }
    requires found { IfSome found.old (GoesFrom stage.now.table.now stage.now.front.now) }
    ensures { IfSome found.new (GoesFrom stage.now.table.now stage.now.front.now) }
{
    let trip = stage.table.trip();
    for end in (stage.front.next_start(trip) + 1..trip.count() + 1).rev() {
        least_by_entries(stage, end, wanted, found);
    }
}

/// Some first parts that one more follows, with the least floor that isn't below a number; nothing where none follows.
/// Those that are no dearer than what they follow come first: mostly one is among them, and then no other is made.
pub(crate) fn least_step(table: &Table, homing: &Homing, front: &Partial, from: u64) -> Step
    requires homing { AreHomingsOf table.now.edition table.now.trip homing.now }
    requires made { IsMadeWith table.now front.now }
    ensures { IfSome result (GoesFrom table.now front.now) }
{
    let stack = stack_of(table, homing, front);
    let wanted = Wanted::first(from, stack.floor);
    let ahead = ahead_of(table, homing, front, stack);
    let stage = Stage {
        table,
        homing,
        front,
        ahead: &ahead,
    };
    let mut found = None;
    least_by_ends(&stage, wanted, &mut found);
    if is_no_dearer(&found, wanted.most) {
        return found;
    }
    least_by_ends(&stage, wanted.then(), &mut found);
    found
}

/// Over the choices of a piece.
fn least_by_choices(stage: &Stage, counts: &Counts, piece: Piece, wanted: Wanted, found: &mut Step)
    requires stage { IsStage stage.now.table.now stage.now.homing.now stage.now.front.now stage.now.ahead.now }
    requires none { stage.now.front.now ≡ [] }
    requires counts { AreCounts stage.now.table.now.edition stage.now.table.now.trip counts.now }
    requires found { IfSome found.old (StartsIn stage.now.table.now piece) }
    ensures { IfSome found.new (StartsIn stage.now.table.now piece) }
{
    for number in piece.first..piece.past.min(choices(stage.table)) {
        lesser_start(stage, counts, piece, number, wanted, found);
    }
}

/// The first part with the least floor, not below a number, among the choices of a piece.
pub(crate) fn first_step(table: &Table, homing: &Homing, piece: Piece, from: u64) -> Step
    requires homing { AreHomingsOf table.now.edition table.now.trip homing.now }
    ensures { IfSome result (StartsIn table.now piece) }
{
    let none = Partial::new();
    let stack = stack_of(table, homing, &none);
    let wanted = Wanted::first(from, stack.floor);
    let ahead = ahead_of(table, homing, &none, stack);
    let stage = Stage {
        table,
        homing,
        front: &none,
        ahead: &ahead,
    };
    let counts = counts_of(table);
    let mut found = None;
    least_by_choices(&stage, &counts, piece, wanted, &mut found);
    if is_no_dearer(&found, wanted.most) {
        return found;
    }
    least_by_choices(&stage, &counts, piece, wanted.then(), &mut found);
    found
}

/// Finds the first part of a choice in place of what was found, where its floor is lesser.
fn lesser_start(
    stage: &Stage,
    counts: &Counts,
    piece: Piece,
    number: u32,
    wanted: Wanted,
    found: &mut Step,
)
    requires stage { IsStage stage.now.table.now stage.now.homing.now stage.now.front.now stage.now.ahead.now }
    requires none { stage.now.front.now ≡ [] }
    requires counts { AreCounts stage.now.table.now.edition stage.now.table.now.trip counts.now }
    requires low { piece.first ≤ number }
    requires high { number < piece.past }
    requires found { IfSome found.old (StartsIn stage.now.table.now piece) }
    ensures { IfSome found.new (StartsIn stage.now.table.now piece) }
{
    let (table, homing) = (stage.table, stage.homing);
    let Some((end, fare)) = choice(table, counts, number) else {
        return;
    };
    let _sectors = table.trip().count();
    let part = Part {
        end: end as u8,
        unit: 1,
        fare,
    };
    let Some(guess) = floor_ahead(table, stage.ahead, stage.front, part) else {
        return;
    };
    if wanted.most < guess || is_no_dearer(found, guess) {
        return;
    }
    let Some(first) = stage.front.next(table, part) else {
        return;
    };
    let Some(floor) = stack_of(table, homing, &first).floor else {
        return;
    };
    if floor < wanted.from || is_no_dearer(found, floor) || is_crowded(table, homing, &first) {
        return;
    }
    *found = Some((first, floor));
}
