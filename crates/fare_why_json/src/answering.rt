//! The JSON answer of what would make a trip cheaper over a book.

ghost use Rattle.std.specs.Prelude.{◌≡◌, ◌<◌, IfOk};
ghost use Rattle.fare_answers.specs.Answers.{Answers};
ghost use Rattle.fare_json.specs.JsonText.{json_line};
ghost use Rattle.fare_why_json.specs.WhyData.{WhyJsonOver, WhyJsonPlaced, why_data};

use crate::telling::spelled_why;
use fare_answers::{QuoteFault, edition_for};
use fare_book::Book;
use fare_ports::NoMemory;
use fare_tariff::Edition;
use fare_trip::Trip;
use fare_units::Quoter;
use fare_why::{Searches, Why, why};
use std::alloc::Global;
use std::thread::Threads;

/// The JSON answer of the price of the best construction of a trip in the edition that its sale day selects, and of the
/// reasons why it isn't cheaper; or why there is no such edition, as `fare_answers::edition_for` answers it.
#[tactic(auto, unfolding(crate::specs::WhyData::WhyJsonOver))]
pub fn why_json<R: Threads + Sync, Q: Quoter>(
    rt: &R,
    alloc: Global,
    book: &Book,
    searches: &Searches<'_, Q>,
    trip: &Trip,
) -> Result<Vec<u8>, QuoteFault>
    requires some { 0 < searches.now.threads }
    ensures { Answers (WhyJsonOver book.now.editions trip.now) result }
{
    match edition_for(book, trip) {
        Ok(edition) => Ok(why_placed(rt, alloc, searches, edition, trip)?),
        Err(fault) => Err(fault),
    }
}

/// The answer in an edition that knows all points of the trip.
fn why_placed<R: Threads + Sync, Q: Quoter>(
    rt: &R,
    alloc: Global,
    searches: &Searches<'_, Q>,
    edition: &Edition,
    trip: &Trip,
) -> Result<Vec<u8>, NoMemory>
    requires { 0 < searches.now.threads }
    ensures { IfOk result (λ text. WhyJsonPlaced trip.now edition.now text.items) }
{
    let found = why(rt, alloc, searches, edition, trip)?;
    told(alloc, edition, &found)
}

/// The answer for what was found.
#[tactic(auto, using(crate::proofs::WhyLemmas::why_text))]
fn told(alloc: Global, edition: &Edition, why: &Why) -> Result<Vec<u8>, NoMemory>
    ensures { IfOk result (λ text. text.items ≡ json_line (why_data edition.now why.now)) }
{
    spelled_why(alloc, edition, why)
}
