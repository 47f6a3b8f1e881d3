//! Why a text isn't published.

ghost use Rattle.std.specs.Prelude.{◌≡◌};
ghost use Rattle.fare_book.specs.declared.publish_fault.PublishFault.TheVariants.{Memory};

use crate::damage::Damage;
use crate::restore_fault::RestoreFault;
use fare_csv::TextFault;
use fare_ports::NoMemory;

/// Why a text isn't published.
#[derive(Clone, Copy, Debug, PartialEq, Eq)]
pub enum PublishFault {
    /// Memory was wanting; nothing was stored.
    Memory,
    /// The text stands for no edition; this is its first fault.
    Malformed(TextFault),
    /// The edition of this number stands in the book with another effective day or other records.
    Differs(u32),
    /// The book holds 32 editions, and none of the number.
    Full,
    /// A call of the keeper failed, and its count rose.
    KeeperFault,
    /// The book was to be reopened, and the body at this place, counted from 1, is the first that is damaged, and so.
    Damaged(u32, Damage),
}

impl From<NoMemory> for PublishFault {
    ghost from_gives = { λ _ fault. fault ≡ Memory };

    fn from(_: NoMemory) -> PublishFault {
        PublishFault::Memory
    }
}

/// A fault of the reopening keeps its kind.
impl From<RestoreFault> for PublishFault {
    ghost use Rattle.std.specs.Prelude.{◌≡◌};
    ghost use Rattle.fare_book.specs.Faults.{reopening_fault};

    ghost from_gives = { λ found fault. fault ≡ reopening_fault found };

    fn from(fault: RestoreFault) -> PublishFault {
        match fault {
            RestoreFault::Memory => PublishFault::Memory,
            RestoreFault::KeeperFault => PublishFault::KeeperFault,
            RestoreFault::Damaged(place, damage) => PublishFault::Damaged(place, damage),
        }
    }
}

/// A fault of the text, but for want of memory, is carried.
impl From<TextFault> for PublishFault {
    ghost use Rattle.std.specs.Prelude.{◌≡◌};
    ghost use Rattle.fare_book.specs.Faults.{text_fault};

    ghost from_gives = { λ found fault. fault ≡ text_fault found };

    fn from(fault: TextFault) -> PublishFault {
        match fault {
            TextFault::Memory => PublishFault::Memory,
            found => PublishFault::Malformed(found),
        }
    }
}
