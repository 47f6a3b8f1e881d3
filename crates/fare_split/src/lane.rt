//! A seat at the shared word as the bound of a search.

ghost use Rattle.std.specs.Prelude.{◌≡◌, ◌≤◌};

use crate::word::{Looks, Seat, Tells, Word};
use fare_branch::Bound;
use std::marker::{Brand, PhantomData};

/// Names one word.
pub(crate) trait Named {
    ghost use Rattle.atomic_table.specs.Seated.{TableId};

    ghost id: { TableId };
}

impl Named for Brand {
    ghost use Rattle.fare_split.specs.NoWord.{no_word};

    ghost id = { no_word };
}

/// A worker's seat at the word of a name: what it looks up is the word, and what it finds it tells there.
#[derive(Drop)]
pub(crate) struct Lane<'a, 'b, N: Named> {
    pub(crate) word: &'a Word<'b>,
    pub(crate) seat: Seat,
    pub(crate) of: PhantomData<N>,
    ghost one_word: { N.id.words ≡ 1 },
    ghost word_is: { word.now.shared.table_id ≡ N.id },
    ghost seat_is: { seat.table_id ≡ N.id },
    ghost low: { seat.me.0.floor ≤ seat.me.0.least },
}

impl<'a, 'b, N: Named> Bound for Lane<'a, 'b, N> {
    ghost fixed = { λ lane. lane.seat.me.0.floor };

    ghost least = { λ lane. lane.seat.me.0.least };

    ghost never_below = { λ lane. lane.low };

    fn seen(&mut self) -> u64 {
        self.word.shared.load::<Looks>(&mut self.seat, 0)
    }

    fn found(&mut self, price: u64) {
        self.word
            .shared
            .fetch_min::<Tells>(&mut self.seat, 0, price);
    }
}
