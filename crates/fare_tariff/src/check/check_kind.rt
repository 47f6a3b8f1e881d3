/// What is wrong with a record of a list, in the order in which one is given to a record that has several.
#[derive(Clone, Copy, Debug, PartialEq, Eq)]
pub enum CheckKind {
    /// An earlier record of the same kind has the same key; the number of the first such.
    Duplicate(u32),
    /// A city that it names has no CITY record.
    UnknownCity,
    /// It is a fare whose rule has no RULE record.
    UnknownRule,
    /// It is a city whose country has no CUR record.
    UnknownCurrency,
    /// At least 64 earlier fares have its from, to and indicator.
    TooManyFares,
    /// Its two cities are equal.
    SamePoint,
    /// It states a mileage of 0.
    ZeroMileage,
    /// Its record number is above 400,001.
    OutOfLimit,
    /// An earlier fare has its key, and some month-day lies in both seasons; the number of the first such.
    Overlap(u32),
}
