//! Why a text is no edition.

ghost use Rattle.std.specs.Prelude.{◌≡◌};
ghost use Rattle.fare_csv.specs.declared.text_fault.TextFault.TheVariants.{Memory};

use fare_ports::NoMemory;
use fare_tariff::{CheckFault, CheckKind};
use std::alloc::{AllocError, AllocFailed};

/// Why a text is no edition. Record numbers count the rows of the text from 1, and stay at the last
/// value of a u32.
#[derive(Clone, Copy, Debug, PartialEq, Eq)]
pub enum TextFault {
    /// Memory ran out.
    Memory,
    /// There is no row, or the first is no HEAD.
    NoHeader,
    /// The record of this number is of no known kind, or a second HEAD.
    UnknownRecord(u32),
    /// The record of this number has another count of fields than its kind (field 0), or this is
    /// its first field that isn't in its form.
    BadRecord(u32, u32),
    /// The record of this number stands after END.
    AfterEnd(u32),
    /// There is no END: the number behind the last record's.
    NoEnd(u32),
    /// The text spells records, of which the one of this number is the first that has no place in
    /// an edition, and why.
    Check(u32, CheckKind),
}

impl From<AllocError> for TextFault {
    ghost from_gives = { λ _ fault. fault ≡ Memory };

    fn from(_: AllocError) -> TextFault {
        TextFault::Memory
    }
}

impl From<NoMemory> for TextFault {
    ghost from_gives = { λ _ fault. fault ≡ Memory };

    fn from(_: NoMemory) -> TextFault {
        TextFault::Memory
    }
}

/// The fault of a record among the others keeps its number and kind.
impl From<CheckFault> for TextFault {
    ghost use Rattle.std.specs.Prelude.{◌≡◌};
    ghost use Rattle.fare_csv.specs.CheckedFault.{checked_fault};

    ghost from_gives = { λ check fault. fault ≡ checked_fault check };

    fn from(fault: CheckFault) -> TextFault {
        match fault {
            CheckFault::Memory => TextFault::Memory,
            CheckFault::At { number, kind } => TextFault::Check(number, kind),
        }
    }
}

impl<T: Drop> From<AllocFailed<T>> for TextFault {
    ghost from_gives = { λ _ fault. fault ≡ Memory };

    fn from(_: AllocFailed<T>) -> TextFault {
        TextFault::Memory
    }
}
