//! Why a book isn't restored.

ghost use Rattle.std.specs.Prelude.{◌≡◌};
ghost use Rattle.fare_book.specs.declared.restore_fault.RestoreFault.TheVariants.{Memory};

use crate::damage::Damage;
use fare_ports::{KeepFault, NoMemory};

/// Why a book isn't restored.
#[derive(Clone, Copy, Debug, PartialEq, Eq)]
pub enum RestoreFault {
    /// Memory was wanting.
    Memory,
    /// A call of the keeper failed, and its count rose.
    KeeperFault,
    /// The body at this place, counted from 1, is the first that is damaged, and so.
    Damaged(u32, Damage),
}

impl From<NoMemory> for RestoreFault {
    ghost from_gives = { λ _ fault. fault ≡ Memory };

    fn from(_: NoMemory) -> RestoreFault {
        RestoreFault::Memory
    }
}

/// A fault of the keeper keeps its kind.
impl From<KeepFault> for RestoreFault {
    ghost use Rattle.std.specs.Prelude.{◌≡◌};
    ghost use Rattle.fare_book.specs.Restored.{kept_fault};

    ghost from_gives = { λ kept fault. fault ≡ kept_fault kept };

    fn from(fault: KeepFault) -> RestoreFault {
        match fault {
            KeepFault::Memory => RestoreFault::Memory,
            KeepFault::Failed => RestoreFault::KeeperFault,
        }
    }
}
