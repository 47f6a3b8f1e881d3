//! The word, with its first seat.

ghost use Rattle.std.specs.Prelude.{◌≡◌, ◌≤◌, IfOk};
ghost use Rattle.fare_split.specs.PriceWord.{first_view, floor_of};

use crate::word::{Seat, Word};
use fare_branch::NO_PRICE;
use fare_component::Table;
use fare_ports::NoMemory;
use std::alloc::Global;

/// A word that holds no price, and its first seat, which knows none.
pub(crate) fn opened<'a>(alloc: Global, table: &Table<'a>) -> Result<(Word<'a>, Seat), NoMemory>
    requires low { floor_of table.now ≤ NO_PRICE }
    ensures one_word { IfOk result (λ made. made.0.shared.table_id.words ≡ 1) }
    ensures key { IfOk result (λ made. made.0.shared.key ≡ table.now) }
    ensures at { IfOk result (λ made. made.1.table_id ≡ made.0.shared.table_id) }
    ensures knows { IfOk result (λ made. made.1.me.0 ≡ first_view (floor_of table.now)) }
{
    let (word, seat) = Word::of_words(alloc, &[NO_PRICE], table)?;
    Ok((word, seat))
}
