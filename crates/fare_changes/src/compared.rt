use fare_codes::City;
use fare_trip::TripFault;

/// What one item of a batch costs in two editions.
#[derive(Clone, Copy, Debug, PartialEq, Eq)]
pub enum Compared {
    /// It stands for no trip, and this is its first fault.
    Faulty(TripFault),
    /// This is the first point of its trip of which neither edition has a record.
    Unknown(City),
    /// Its total in the one edition, and in the other, in NUC hundredths: nothing where no construction is lawful.
    Totals(Option<u64>, Option<u64>),
}
