//! A search that takes long dives once more, and behind what it finds too: the least price that a longer dive comes to
//! leaves out more than the dive before the walk.

ghost use Rattle.std.specs.Prelude.{◌≡◌, ◌≤◌};
ghost use Rattle.fare_branch.specs.Search.{IsLeastPrice};
ghost use Rattle.fare_branch.specs.Walked.{IsUnderAll};
ghost use Rattle.fare_homing.specs.Rows.{AreHomingsOf};
ghost use Rattle.fare_floors.specs.Floors.{IsMadeWith};

use crate::bound::Bound;
use crate::descent::{MOST_DEPTH, MOST_FOLLOWERS, MOST_LISTS};
use crate::diving::least_step;
use crate::opening::bring_closer;
use crate::own_bound::OwnBound;
use fare_component::Table;
use fare_floors::Partial;
use fare_homing::{Homing, make_homing, unknown_homing};
use fare_units::lawful_price_by;

/// After how many questions for the least price known a search takes long.
const LONG: u32 = 20_000;

/// Tells a bound the price of a whole construction, where it is lawful.
fn tell(table: &Table, front: &Partial, bound: &mut OwnBound)
    requires under { IsUnderAll table.now.edition table.now.trip (⟦<OwnBound as Bound>⟧.fixed bound.old) }
    ensures fixed { ⟦<OwnBound as Bound>⟧.fixed bound.new ≡ ⟦<OwnBound as Bound>⟧.fixed bound.old }
    ensures falls { ⟦<OwnBound as Bound>⟧.least bound.new ≤ ⟦<OwnBound as Bound>⟧.least bound.old }
{
    if let Ok(price) = lawful_price_by(table, front.construction()) {
        bound.found(price);
    }
}

/// Tells a bound the price of each lawful construction that a dive comes to from some first parts on, each of which is
/// cheaper than what was known before.
#[cycle(deepen)]
fn deepen(
    table: &Table,
    homing: &Homing,
    front: &Partial,
    depth: u32,
    lists: &mut u32,
    bound: &mut OwnBound,
)
    requires homing { AreHomingsOf table.now.edition table.now.trip homing.now }
    requires made { IsMadeWith table.now front.now }
    requires under { IsUnderAll table.now.edition table.now.trip (⟦<OwnBound as Bound>⟧.fixed bound.old) }
    ensures fixed { ⟦<OwnBound as Bound>⟧.fixed bound.new ≡ ⟦<OwnBound as Bound>⟧.fixed bound.old }
    ensures falls { ⟦<OwnBound as Bound>⟧.least bound.new ≤ ⟦<OwnBound as Bound>⟧.least bound.old }
{
    if front.end() == table.trip().count() {
        return tell(table, front, bound);
    }
    if depth == 0 {
        return;
    }
    let mut from = 0;
    for _follower in 0..MOST_FOLLOWERS {
        if *lists == 0 {
            return;
        }
        *lists -= 1;
        let Some((longer, floor)) = least_step(table, homing, front, from) else {
            return;
        };
        if bound.seen() <= floor {
            return;
        }
        from = floor.saturating_add(1);
        deepen(table, homing, &longer, depth - 1, lists, bound);
    }
}

/// Tells a bound what a dive through all constructions comes to. What is behind the points of the trip is made for it
/// anew, and given back before the walk goes on.
#[inline(never)]
fn dive_deeper(table: &Table, bound: &mut OwnBound)
    requires under { IsUnderAll table.now.edition table.now.trip (⟦<OwnBound as Bound>⟧.fixed bound.old) }
    ensures fixed { ⟦<OwnBound as Bound>⟧.fixed bound.new ≡ ⟦<OwnBound as Bound>⟧.fixed bound.old }
    ensures falls { ⟦<OwnBound as Bound>⟧.least bound.new ≤ ⟦<OwnBound as Bound>⟧.least bound.old }
{
    let mut homing = unknown_homing();
    make_homing(&mut homing, table, None);
    let known = bound.seen();
    bring_closer(table, &mut homing, known);
    let mut lists = MOST_LISTS;
    deepen(
        table,
        &homing,
        &Partial::new(),
        MOST_DEPTH,
        &mut lists,
        bound,
    );
}

/// The bound of a search by one worker, which dives once more where it is asked often. It may so answer less than it
/// was told, but never less than the price of a lawful construction.
#[derive(Drop)]
pub(crate) struct DivingBound<'a, 'b> {
    table: &'b Table<'a>,
    own: OwnBound,
    asked: u32,
    ghost under: { IsUnderAll table.now.edition table.now.trip (⟦<OwnBound as Bound>⟧.fixed own) },
}

impl<'a, 'b> DivingBound<'a, 'b> {
    /// A bound that knows what another does, and wasn't asked yet.
    pub(crate) fn new(table: &'b Table<'a>, own: OwnBound) -> DivingBound<'a, 'b>
        requires { IsLeastPrice table.now.edition table.now.trip (⟦<OwnBound as Bound>⟧.fixed own) }
        ensures fixed { ⟦<DivingBound<'a, 'b> as Bound>⟧.fixed result ≡ ⟦<OwnBound as Bound>⟧.fixed own }
        ensures least { ⟦<DivingBound<'a, 'b> as Bound>⟧.least result ≡ ⟦<OwnBound as Bound>⟧.least own }
    {
        DivingBound {
            table,
            own,
            asked: 0,
        }
    }
}

impl<'a, 'b> Bound for DivingBound<'a, 'b> {
    ghost fixed = { λ bound. ⟦<OwnBound as Bound>⟧.fixed bound.own };

    ghost least = { λ bound. ⟦<OwnBound as Bound>⟧.least bound.own };

    ghost never_below = { λ bound. bound.own.above };

    fn seen(&mut self) -> u64 {
        self.asked = self.asked.saturating_add(1);
        if self.asked == LONG {
            dive_deeper(self.table, &mut self.own);
        }
        self.own.seen()
    }

    fn found(&mut self, price: u64) {
        self.own.found(price);
    }
}
