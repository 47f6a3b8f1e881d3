//! The JSON answer of a quotation over a book.

ghost use Rattle.std.specs.Prelude.{◌≡◌, None, Some, IfOk};
ghost use Rattle.fare_answers.specs.Answers.{Answers};
ghost use Rattle.fare_json.specs.JsonText.{json_line};
ghost use Rattle.fare_json.specs.Quotation.{QuotesJson, QuotesJsonPlaced};
ghost use Rattle.fare_json.specs.QuotationData.{quotation_data};
ghost use Rattle.fare_json.specs.Spelled.{quotation_json};

use crate::construction::push_construction;
use crate::edition::push_edition;
use fare_answers::{QuoteFault, edition_for};
use fare_book::Book;
use fare_calc::{Priced, Sheets};
use fare_ports::NoMemory;
use fare_tariff::Edition;
use fare_trip::Trip;
use fare_units::Quoter;
use std::alloc::Global;
use std::thread::Threads;

/// The JSON answer of the best construction of a trip in the edition that its sale day selects, or why there is no
/// such edition, as `fare_answers::edition_for` answers it.
#[tactic(auto, unfolding(crate::specs::Quotation::QuotesJson))]
pub fn quote_json<R: Threads + Sync, Q: Quoter>(
    rt: &R,
    alloc: Global,
    book: &Book,
    quoter: &Q,
    trip: &Trip,
) -> Result<Vec<u8>, QuoteFault>
    ensures { Answers (QuotesJson book.now.editions trip.now) result }
{
    match edition_for(book, trip) {
        Ok(edition) => Ok(quote_placed(rt, alloc, edition, quoter, trip)?),
        Err(fault) => Err(fault),
    }
}

/// The answer in an edition that knows all points of the trip.
fn quote_placed<R: Threads + Sync, Q: Quoter>(
    rt: &R,
    alloc: Global,
    edition: &Edition,
    quoter: &Q,
    trip: &Trip,
) -> Result<Vec<u8>, NoMemory>
    ensures { IfOk result (λ text. QuotesJsonPlaced trip.now edition.now text.items) }
{
    match quoter.quote(rt, alloc, edition, trip)? {
        None => no_fare_json(alloc, edition, trip),
        Some((best, price)) => {
            let construction = &best;
            let best = Priced {
                edition,
                trip,
                construction,
                price,
            };
            priced_json(alloc, &best)
        }
    }
}

/// The answer where no construction is lawful.
#[tactic(auto, using(crate::proofs::QuotationLemmas::quotation_text))]
fn no_fare_json(alloc: Global, edition: &Edition, trip: &Trip) -> Result<Vec<u8>, NoMemory>
    ensures { IfOk result (λ text. text.items ≡ json_line (quotation_data edition.now trip.now None)) }
{
    spelled_no_fare(alloc, edition, trip)
}

/// The same, as it is spelled.
#[tactic(auto, unfolding(crate::specs::Spelled::quotation_json))]
fn spelled_no_fare(alloc: Global, edition: &Edition, trip: &Trip) -> Result<Vec<u8>, NoMemory>
    ensures { IfOk result (λ text. text.items ≡ quotation_json edition.now trip.now None) }
{
    let _points = trip.count();
    let mut text = Vec::new(alloc);
    text.extend_from_slice(b"{\"edition\":")?;
    push_edition(&mut text, edition)?;
    text.extend_from_slice(b",\"quotation\":null}\n")?;
    Ok(text)
}

/// The answer for the best construction, with the price that was found for it.
#[tactic(auto, using(crate::proofs::QuotationLemmas::quotation_text))]
fn priced_json(alloc: Global, best: &Priced<'_>) -> Result<Vec<u8>, NoMemory>
    ensures { IfOk result (λ text. text.items ≡ json_line
        (quotation_data best.now.edition.now best.now.trip.now (Some best.now.construction.now))) }
{
    spelled_priced(alloc, best)
}

/// The same, as it is spelled.
#[tactic(auto, unfolding(crate::specs::Spelled::quotation_json))]
fn spelled_priced(alloc: Global, best: &Priced<'_>) -> Result<Vec<u8>, NoMemory>
    ensures { IfOk result (λ text. text.items
        ≡ quotation_json best.now.edition.now best.now.trip.now (Some best.now.construction.now)) }
{
    let sheets = Sheets::of(best);
    let mut text = Vec::new(alloc);
    text.extend_from_slice(b"{\"edition\":")?;
    push_edition(&mut text, best.edition)?;
    text.extend_from_slice(b",\"quotation\":")?;
    push_construction(&mut text, alloc, &sheets)?;
    text.extend_from_slice(b"}\n")?;
    Ok(text)
}
