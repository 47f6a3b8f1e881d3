use fare_csv::Version;
use fare_tariff::Filed;

/// What the sentence of a fault rests on, besides the record that has it.
#[derive(Clone, Copy)]
pub(crate) struct Grounds<'a> {
    /// The version of the text; nothing where the text leaves it open.
    pub version: Option<Version>,
    /// The records of the text; none where it has a fault of reading.
    pub filed: &'a Filed,
}
