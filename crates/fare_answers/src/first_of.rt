use fare_ranking::BestList;
use fare_tariff::Edition;
use fare_trip::Trip;

/// The first constructions of a trip in an edition.
#[derive(Clone, Copy)]
pub struct FirstOf<'f> {
    /// The edition.
    pub edition: &'f Edition,
    /// The trip.
    pub trip: &'f Trip,
    /// Its first constructions, with their prices.
    pub list: &'f BestList,
}
