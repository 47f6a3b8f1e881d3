//! The edition in which a trip is answered.

ghost use Rattle.std.specs.Prelude.{◌≡◌, Ok, Err, IfErr, IfOk};
ghost use Rattle.fare_answers.specs.EditionFor.{edition_for, that_knows};

use crate::quote_fault::QuoteFault;
use fare_book::Book;
use fare_points::placed;
use fare_tariff::Edition;
use fare_trip::Trip;

/// The edition that a trip's sale day selects in a book, where it knows each point of the trip.
///
/// `NoEdition` comes exactly where the day selects none, with that day; then `UnknownPlace` exactly where the edition
/// doesn't know a point of the trip, with the first such.
pub fn edition_for<'b>(book: &'b Book, trip: &Trip) -> Result<&'b Edition, QuoteFault>
    ensures found { IfOk result (λ edition. edition_for book.now.editions trip.now ≡ Ok edition.now) }
    ensures refused { IfErr result (λ fault. edition_for book.now.editions trip.now ≡ Err fault) }
{
    let sale = trip.sale();
    match book.select(sale) {
        None => Err(QuoteFault::NoEdition(sale)),
        Some(edition) => that_knows(edition, trip),
    }
}

/// An edition, where it knows each point of a trip.
fn that_knows<'b>(edition: &'b Edition, trip: &Trip) -> Result<&'b Edition, QuoteFault>
    ensures found { IfOk result (λ chosen. that_knows trip.now edition.now ≡ Ok chosen.now) }
    ensures refused { IfErr result (λ fault. that_knows trip.now edition.now ≡ Err fault) }
{
    match placed(edition, trip) {
        None => Ok(edition),
        Some(city) => Err(QuoteFault::UnknownPlace(city)),
    }
}
