//! The search of a piece.

ghost use Rattle.std.specs.Prelude.{◌≡◌, ◌≤◌, ◌<◌, [], length};
ghost use Rattle.fare_bounds.specs.Covers.{AreRests};
ghost use Rattle.fare_floors.specs.Ahead.{IsStage};
ghost use Rattle.fare_branch.specs.Beginnings.{AreCounts};
ghost use Rattle.fare_homing.specs.Rows.{AreHomingsOf};
ghost use Rattle.fare_branch.specs.LeastPrice.{least_price};
ghost use Rattle.fare_branch.specs.Search.{IsLeastPrice, BeginsIn, BeginsBy, IsSearched, kept_at};
ghost use Rattle.fare_branch.specs.Shares.{AreFoundIn, IsBegun, IsFoundIn, IsPlan};
ghost use Rattle.fare_branch.specs.Sought.{IsWalk};
ghost use Rattle.fare_branch.specs.Walked.{IsUnderAll};

use crate::best_so_far::{BestSoFar, Found};
use crate::bound::Bound;
use crate::opening::opened;
use crate::pieces::{Counts, Piece, choice, choices, counts_of};
use crate::plan::Plan;
use crate::seeker::Seeker;
use crate::share::{Share, WHOLE};
use crate::walking::follow;
use arrayvec::ArrayVec;
use fare_bounds::Rest;
use fare_component::Table;
use fare_floors::{Partial, Stage, ahead_of, floor_ahead, stack_of};
use fare_homing::{Homing, make_homing, unknown_homing};
use fare_rules::Part;
use fare_units::Construction;

/// How many pieces are searched together at most.
pub const MOST_PIECES: usize = 16;

/// What was found in each of some pieces.
pub type Finds = ArrayVec<Option<(Construction, u64)>, MOST_PIECES>;

/// The best of the constructions that begin in a piece, where its price is the least that the bound knows at the end;
/// nothing only where each of them costs more than that.
pub fn search<B: Bound>(
    table: &Table,
    rest: &Rest,
    piece: Piece,
    bound: &mut B,
) -> Option<(Construction, u64)>
    requires rest { AreRests table.now.edition table.now.trip rest.now }
    requires least { IsLeastPrice table.now.edition table.now.trip (B.fixed bound.old) }
    ensures fixed { B.fixed bound.new ≡ B.fixed bound.old }
    ensures searched { IsSearched table.now.edition table.now.trip piece (B.least bound.new) result }
{
    let mut homing = unknown_homing();
    make_homing(&mut homing, table, None);
    let first = opened(table, &mut homing, piece, bound);
    let best = BestSoFar {
        share: WHOLE,
        known: bound.seen(),
        found: first,
    };
    let found = found_in(table, &homing, piece, best, bound);
    let least = bound.seen();
    kept_at(found, least)
}

/// The best of one share of the constructions in each piece of a plan, or else one that was found before it was known
/// that it costs more than the least price. There are as many shares as pieces; what all shares come to in a piece is
/// together what `search` does.
pub fn search_share<B: Bound>(plan: &Plan, number: u32, bound: &mut B) -> Finds
    requires plan { IsPlan plan.now.table.now plan.now.homing.now plan.now.pieces.now plan.now.known }
    requires number { number < length plan.now.pieces.now }
    requires least { B.fixed bound.old ≡ least_price plan.now.table.now.edition plan.now.table.now.trip }
    ensures fixed { B.fixed bound.new ≡ B.fixed bound.old }
    ensures found { AreFoundIn plan.now.table.now.edition plan.now.table.now.trip
        (record { number = number; count = length plan.now.pieces.now }) (B.least bound.new) plan.now.pieces.now
        result.items }
{
    let share = Share {
        number,
        count: plan.pieces.len() as u32,
    };
    bound.found(plan.known);
    let mut finds = Finds::new();
    for piece in plan.pieces {
        let best = BestSoFar {
            share,
            known: bound.seen(),
            found: None,
        };
        let found = found_in(plan.table, plan.homing, *piece, best, bound);
        finds.push(found);
    }
    finds
}

/// The best of a share of the constructions that begin in a piece, by a seeker that begins with what was dived for.
fn found_in<B: Bound>(
    table: &Table,
    homing: &Homing,
    piece: Piece,
    mut best: BestSoFar,
    bound: &mut B,
) -> Found
    requires homing { AreHomingsOf table.now.edition table.now.trip homing.now }
    requires under { IsUnderAll table.now.edition table.now.trip (B.fixed bound.old) }
    requires begun { IsBegun table.now.edition table.now.trip piece (B.least bound.old) best.found }
    requires known { B.least bound.old ≤ best.known }
    ensures fixed { B.fixed bound.new ≡ B.fixed bound.old }
    ensures falls { B.least bound.new ≤ best.known }
    ensures found { IsFoundIn table.now.edition table.now.trip best.share (B.least bound.new) piece result }
{
    walk_piece(table, homing, piece, &mut best, bound);
    best.found
}

/// What was found, where its price is no more than a number.
pub fn kept_at(found: Found, least: u64) -> Found
    ensures { result ≡ kept_at found least }
{
    match found {
        Some((parts, price)) if price <= least => Some((parts, price)),
        _ => None,
    }
}

/// Walks over the constructions that begin in a piece.
fn walk_piece<K, S: Seeker<K>>(
    table: &Table,
    homing: &Homing,
    piece: Piece,
    seeker: &mut S,
    known: &mut K,
)
    requires homing { AreHomingsOf table.now.edition table.now.trip homing.now }
    requires holds { S.holds table.now.edition table.now.trip seeker.old known.old }
    ensures fixed { S.fixed seeker.new known.new ≡ S.fixed seeker.old known.old }
    ensures holds { S.holds table.now.edition table.now.trip seeker.new known.new }
    ensures walk { IsWalk table.now.edition table.now.trip (BeginsIn table.now.edition table.now.trip piece)
        (S.passed seeker.old known.old) (S.has seeker.old known.old) (S.passed seeker.new known.new)
        (S.has seeker.new known.new) }
{
    let none = Partial::new();
    let ahead = ahead_of(table, homing, &none, stack_of(table, homing, &none));
    let stage = Stage {
        table,
        homing,
        front: &none,
        ahead: &ahead,
    };
    let counts = counts_of(table);
    for number in piece.first..piece.past.min(choices(table)) {
        walk_choice(&stage, &counts, number, seeker, known);
    }
}

/// Walks over the constructions that begin with a choice.
fn walk_choice<K, S: Seeker<K>>(
    stage: &Stage,
    counts: &Counts,
    number: u32,
    seeker: &mut S,
    known: &mut K,
)
    requires stage { IsStage stage.now.table.now stage.now.homing.now stage.now.front.now stage.now.ahead.now }
    requires none { stage.now.front.now ≡ [] }
    requires counts { AreCounts stage.now.table.now.edition stage.now.table.now.trip counts.now }
    requires holds { S.holds stage.now.table.now.edition stage.now.table.now.trip seeker.old known.old }
    ensures fixed { S.fixed seeker.new known.new ≡ S.fixed seeker.old known.old }
    ensures holds { S.holds stage.now.table.now.edition stage.now.table.now.trip seeker.new known.new }
    ensures walk { IsWalk stage.now.table.now.edition stage.now.table.now.trip
        (BeginsBy stage.now.table.now.edition stage.now.table.now.trip number) (S.passed seeker.old known.old)
        (S.has seeker.old known.old) (S.passed seeker.new known.new) (S.has seeker.new known.new) }
{
    let table = stage.table;
    let _sectors = table.trip().count();
    let Some((end, fare)) = choice(table, counts, number) else {
        return;
    };
    let part = Part {
        end: end as u8,
        unit: 1,
        fare,
    };
    let floor = floor_ahead(table, stage.ahead, stage.front, part);
    follow(stage, part, floor, seeker, known)
}
