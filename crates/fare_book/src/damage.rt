use fare_csv::TextFault;

/// What is wrong with the stored bodies.
#[derive(Clone, Copy, Debug, PartialEq, Eq)]
pub enum Damage {
    /// The body at the place is no edition's text; this is its first fault.
    Text(TextFault),
    /// The body at the place has the number of the edition at this earlier place.
    Repeat(u32),
    /// There are more bodies than a book holds.
    TooMany,
}
