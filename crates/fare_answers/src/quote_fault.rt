//! Why a trip isn't quoted.

ghost use Rattle.std.specs.Prelude.{◌≡◌};
ghost use Rattle.fare_answers.specs.declared.quote_fault.QuoteFault.TheVariants.{Memory};

use fare_codes::{City, Day};
use fare_ports::NoMemory;

/// Why a trip isn't quoted.
#[derive(Clone, Copy, Debug, PartialEq, Eq)]
pub enum QuoteFault {
    /// Memory was wanting.
    Memory,
    /// No edition of the book is effective by this sale day.
    NoEdition(Day),
    /// This is the first point of the trip that the selected edition doesn't know.
    UnknownPlace(City),
}

impl From<NoMemory> for QuoteFault {
    ghost from_gives = { λ _ fault. fault ≡ Memory };

    fn from(_: NoMemory) -> QuoteFault {
        QuoteFault::Memory
    }
}
