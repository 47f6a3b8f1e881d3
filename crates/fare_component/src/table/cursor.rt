ghost use Rattle.std.specs.Prelude.{◌≡◌, ◌+◌, ◌≤◌, ◌↔◌, IsTrue, Some};
ghost use Rattle.fare_component.specs.Candidates.{StandsAt};

use fare_codes::{City, Indicator};
use fare_tariff::{Edition, fares_come_in_turn};

/// The fares from a city to another for an indicator.
#[derive(Clone, Copy)]
pub(crate) struct Market {
    pub(crate) from: City,
    pub(crate) to: City,
    pub(crate) ind: Indicator,
}

impl Market {
    /// That of the other way.
    pub(crate) fn back(&self) -> Market
        ensures { result ≡ record { from = self.now.to; to = self.now.from; ind = self.now.ind } }
    {
        Market {
            from: self.to,
            to: self.from,
            ind: self.ind,
        }
    }
}

/// A place among the fares from a city to another for an indicator, which come in record order.
#[derive(Clone, Copy)]
pub(crate) struct Cursor {
    pub(crate) place: u32,
    pub(crate) next: Option<u32>,
}

/// The cursor before the first fare.
#[tactic(auto, using(crate::proofs::CursorLemmas::stands_at_first))]
pub(crate) fn first_cursor(edition: &Edition, market: &Market) -> Cursor
    ensures stands { StandsAt edition.now market.now.from market.now.to market.now.ind 2 result }
    ensures place { result.place ≡ 0 }
{
    Cursor {
        place: 0,
        next: edition.nth_fare(market.from, market.to, market.ind, 0),
    }
}

/// Whether the fare that a cursor shows next has this number.
fn shows(cursor: &Cursor, number: u32) -> bool
    ensures { IsTrue result ↔ (cursor.now.next ≡ Some number) }
{
    match cursor.next {
        None => false,
        Some(next) => next == number,
    }
}

/// The cursor that is past a number: past its next fare, where that has the number.
#[tactic(auto, using(crate::proofs::CursorLemmas::stands_on, crate::proofs::CursorLemmas::stands_behind))]
pub(crate) fn cursor_past(edition: &Edition, market: &Market, cursor: Cursor, number: u32) -> Cursor
    requires { StandsAt edition.now market.now.from market.now.to market.now.ind number cursor }
    ensures stands { StandsAt edition.now market.now.from market.now.to market.now.ind (number + 1) result }
    ensures kept { cursor.place ≤ result.place }
    ensures passed { cursor.next ≡ Some number → result.place ≡ cursor.place + 1 }
{
    if !shows(&cursor, number) {
        return cursor;
    }
    let _market = market;
    fares_come_in_turn(edition);
    Cursor {
        place: cursor.place + 1,
        next: edition.next_fare(number),
    }
}
