//! The word that all workers share, and what a seat at it knows.

use atomic_table::{Play, Split, TableRule};
use fare_component::Table;
use std::alloc::Global;

/// What a seat knows: the least price of a lawful construction, and the least number that it was told or has told. No
/// value of it is made.
pub struct View {
    /// The least price of a lawful construction, or `NO_PRICE` where none is lawful.
    pub floor: u64,
    /// The least number known.
    pub least: u64,
}

/// The rule of the word: it is `NO_PRICE` or the least of some prices of lawful constructions, and no more than any
/// seat knows.
pub(crate) struct PriceRule;

impl<'a> TableRule<(), View, Table<'a>> for PriceRule {
    ghost use Rattle.fare_split.specs.PriceWord.{IsPriceWord, first_view, floor_of};

    ghost holds = { λ prices state. IsPriceWord (floor_of prices) state };

    ghost first = { λ prices. first_view (floor_of prices) };
}

/// A load: what is found is no less than the floor and no more than was known, and becomes what is known.
pub(crate) struct Looks;

impl Play<(), View> for Looks {
    ghost use Rattle.fare_split.specs.PriceWord.{Looks};

    ghost then = { Looks };
}

/// A price is told: what is known becomes the lesser of itself and the price.
pub(crate) struct Tells;

impl Play<(), View> for Tells {
    ghost use Rattle.fare_split.specs.PriceWord.{Tells};

    ghost then = { Tells };
}

/// A seat more, which knows what the first one does.
pub(crate) struct Copies;

impl Split<View> for Copies {
    ghost left = { λ view. view };

    ghost right = { λ view. view };
}

/// A word that holds the least price that any worker found.
pub(crate) type Word<'a> = atomic_table::Table<(), View, Table<'a>, PriceRule, Global>;

/// A worker's place at the word.
pub(crate) type Seat = atomic_table::Seat<(), View>;
