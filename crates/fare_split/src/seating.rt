//! The workers, each with a seat of its own at the word.

ghost use Rattle.std.specs.Prelude.{◌≡◌, ◌≤◌, All, IfOk, length};
ghost use Rattle.fare_branch.specs.declared.bound.TheConstants.{NO_PRICE};
ghost use Rattle.fare_split.specs.PriceWord.{first_view, floor_of};
ghost use Rattle.fare_split.specs.Workers.{IsSeated};

use crate::word::{Copies, Seat, Word};
use crate::worker::Worker;
use fare_branch::{Finds, NO_PRICE};
use fare_ports::NoMemory;
use std::alloc::Global;

/// Workers of a number. None has begun.
pub(crate) fn seated(
    alloc: Global,
    word: &Word,
    mut seat: Seat,
    workers: u32,
) -> Result<Vec<Worker>, NoMemory>
    requires one_word { word.now.shared.table_id.words ≡ 1 }
    requires at { seat.table_id ≡ word.now.shared.table_id }
    requires knows { seat.me.0 ≡ first_view (floor_of word.now.shared.key) }
    requires low { floor_of word.now.shared.key ≤ NO_PRICE }
    ensures count { IfOk result (λ made. length made.items ≡ workers) }
    ensures seated { IfOk result
        (λ made. All (IsSeated word.now.shared.table_id (floor_of word.now.shared.key)) made.items) }
{
    let mut made = Vec::new(alloc);
    for _worker in 0..workers {
        let own = word.shared.split_seat::<Copies>(&mut seat);
        made.push(Worker {
            seat: Some(own),
            finds: Finds::new(),
            least: NO_PRICE,
        })?;
    }
    Ok(made)
}
