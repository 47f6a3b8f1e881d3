//! The JSON answer of the first constructions of a trip over a book.

ghost use Rattle.std.specs.Prelude.{◌≤◌, IfOk};
ghost use Rattle.fare_answers.specs.Answers.{Answers};
ghost use Rattle.fare_json.specs.BestData.{BestJson, BestJsonPlaced};

use fare_answers::{FirstOf, QuoteFault, edition_for};
use fare_best::first_k;
use fare_book::Book;
use fare_codes::MOST_BEST;
use fare_json::first_json;
use fare_ports::NoMemory;
use fare_tariff::Edition;
use fare_trip::Trip;
use std::alloc::Global;

/// The JSON answer of the first `k` lawful constructions of a trip in the edition that its sale day selects, or why
/// there is no such edition, as `fare_answers::edition_for` answers it.
#[tactic(auto, unfolding(fare_json::specs::BestData::BestJson))]
pub fn best_json(alloc: Global, book: &Book, trip: &Trip, k: u32) -> Result<Vec<u8>, QuoteFault>
    requires some { 1 ≤ k }
    requires few { k ≤ MOST_BEST }
    ensures { Answers (BestJson book.now.editions trip.now k) result }
{
    match edition_for(book, trip) {
        Ok(edition) => Ok(best_placed(alloc, edition, trip, k)?),
        Err(fault) => Err(fault),
    }
}

/// The answer in an edition that knows all points of the trip.
fn best_placed(alloc: Global, edition: &Edition, trip: &Trip, k: u32) -> Result<Vec<u8>, NoMemory>
    requires some { 1 ≤ k }
    requires few { k ≤ MOST_BEST }
    ensures { IfOk result (λ text. BestJsonPlaced trip.now k edition.now text.items) }
{
    let list = first_k(alloc, edition, trip, k)?;
    let first = FirstOf {
        edition,
        trip,
        list: &list,
    };
    first_json(alloc, &first)
}
