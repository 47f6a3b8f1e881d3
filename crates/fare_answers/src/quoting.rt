//! The text that answers a trip over a book.

ghost use Rattle.std.specs.Prelude.{IfOk};
ghost use Rattle.fare_answers.specs.Answers.{Answers};
ghost use Rattle.fare_answers.specs.Quotation.{Quotes, QuotesPlaced};

use crate::quote_fault::QuoteFault;
use crate::selecting::edition_for;
use fare_book::Book;
use fare_calc::{Priced, no_fare_text, priced_text};
use fare_ports::NoMemory;
use fare_tariff::Edition;
use fare_trip::Trip;
use fare_units::Quoter;
use std::alloc::Global;
use std::thread::Threads;

/// The answer text of the best construction of a trip in the edition that its sale day selects, or why there is no
/// such edition, as `edition_for` answers it.
#[tactic(auto, unfolding(crate::specs::Quotation::Quotes))]
pub fn quote_text<R: Threads + Sync, Q: Quoter>(
    rt: &R,
    alloc: Global,
    book: &Book,
    quoter: &Q,
    trip: &Trip,
) -> Result<Vec<u8>, QuoteFault>
    ensures { Answers (Quotes book.now.editions trip.now) result }
{
    match edition_for(book, trip) {
        Ok(edition) => Ok(quote_placed(rt, alloc, edition, quoter, trip)?),
        Err(fault) => Err(fault),
    }
}

/// The answer text in an edition that knows all points of the trip.
#[tactic(auto, unfolding(fare_calc::specs::Answer::answer_text))]
fn quote_placed<R: Threads + Sync, Q: Quoter>(
    rt: &R,
    alloc: Global,
    edition: &Edition,
    quoter: &Q,
    trip: &Trip,
) -> Result<Vec<u8>, NoMemory>
    ensures { IfOk result (λ text. QuotesPlaced trip.now edition.now text.items) }
{
    match quoter.quote(rt, alloc, edition, trip)? {
        None => no_fare_text(alloc, edition),
        Some((best, price)) => {
            let construction = &best;
            let best = Priced {
                edition,
                trip,
                construction,
                price,
            };
            priced_text(alloc, &best)
        }
    }
}
