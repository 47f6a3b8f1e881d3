//! A dive: from the cheapest of the choices of a piece on, the followers with the least floors first, until a lawful
//! construction is found or some hundred lists of parts were seen. It is tried first, so that a price is known early.

ghost use Rattle.std.specs.Prelude.{IfSome};
ghost use Rattle.fare_homing.specs.Rows.{AreHomingsOf};
ghost use Rattle.fare_floors.specs.Floors.{IsMadeWith};
ghost use Rattle.fare_branch.specs.Dive.{IsLanded};
ghost use Rattle.fare_branch.specs.Search.{BeginsIn};

use crate::diving::{first_step, least_step};
use crate::pieces::{Piece, choices};
use fare_component::Table;
use fare_floors::Partial;
use fare_homing::Homing;
use fare_units::lawful_price_by;

/// How many lists of parts a dive goes on to.
pub(crate) const MOST_LISTS: u32 = 200;

/// With how many of those that follow some first parts a dive goes on.
pub(crate) const MOST_FOLLOWERS: usize = 4;

/// The most parts of a construction.
pub(crate) const MOST_DEPTH: u32 = 16;

/// A lawful construction with its price, where there is one.
type Landing = Option<(Partial, u64)>;

/// A whole construction, where it is lawful.
fn whole(table: &Table, piece: Piece, front: &Partial) -> Landing
    requires begins { BeginsIn table.now.edition table.now.trip piece front.now }
    ensures { IfSome result (IsLanded table.now piece) }
{
    match lawful_price_by(table, front.construction()) {
        Err(_) => None,
        Ok(price) => Some((front.copy(), price)),
    }
}

/// The first lawful construction that a dive finds from some first parts on.
#[cycle(descend)]
fn descend(
    table: &Table,
    homing: &Homing,
    piece: Piece,
    front: &Partial,
    depth: u32,
    lists: &mut u32,
) -> Landing
    requires homing { AreHomingsOf table.now.edition table.now.trip homing.now }
    requires begins { BeginsIn table.now.edition table.now.trip piece front.now }
    requires made { IsMadeWith table.now front.now }
    ensures { IfSome result (IsLanded table.now piece) }
{
    if front.end() == table.trip().count() {
        return whole(table, piece, front);
    }
    if depth == 0 {
        return None;
    }
    let mut from = 0;
    for _follower in 0..MOST_FOLLOWERS {
        if *lists == 0 {
            return None;
        }
        *lists -= 1;
        let (longer, floor) = least_step(table, homing, front, from)?;
        from = floor.saturating_add(1);
        let found = descend(table, homing, piece, &longer, depth - 1, lists);
        if found.is_some() {
            return found;
        }
    }
    None
}

/// What a dive comes to in a piece: a construction that begins with one of its choices; nothing where it finds none.
pub(crate) fn dive(table: &Table, homing: &Homing, piece: Piece) -> Landing
    requires homing { AreHomingsOf table.now.edition table.now.trip homing.now }
    ensures { IfSome result (IsLanded table.now piece) }
{
    let mut lists = MOST_LISTS;
    let mut from = 0;
    for _first in 0..MOST_FOLLOWERS {
        let (first, floor) = first_step(table, homing, piece, from)?;
        from = floor.saturating_add(1);
        let found = descend(table, homing, piece, &first, MOST_DEPTH, &mut lists);
        if found.is_some() {
            return found;
        }
    }
    None
}

/// The first parts of some, without as many of their last ones as are left out.
fn front_of(table: &Table, whole: &Partial, left_out: usize) -> Partial
    ensures { IsMadeWith table.now result }
{
    let parts = whole.parts();
    let mut front = Partial::new();
    for i in 0..parts.len().saturating_sub(left_out) {
        let Some(longer) = front.next(table, parts[i]) else {
            return front;
        };
        front = longer;
    }
    front
}

/// The first parts of a construction that a dive comes to, without some of its last parts; no parts where it finds none.
pub fn dived_front(table: &Table, homing: &Homing, left_out: usize) -> Partial
    requires homing { AreHomingsOf table.now.edition table.now.trip homing.now }
    ensures { IsMadeWith table.now result }
{
    let _sectors = table.trip().count();
    let all = Piece {
        first: 0,
        past: choices(table),
    };
    match dive(table, homing, all) {
        None => Partial::new(),
        Some((whole, _price)) => front_of(table, &whole, left_out),
    }
}
