//! The ends of a run for what the crates below refuse.

use crate::exit::Exit;
use fare_answers::QuoteFault;
use fare_book::{PublishFault, RestoreFault};
use fare_ports::{KeepFault, NoMemory, ReadEnd};

impl From<NoMemory> for Exit {
    ghost use Rattle.std.specs.Prelude.{◌≡◌};
    ghost use Rattle.fare_commands.specs.declared.exit.Exit.TheVariants.{Memory};

    ghost from_gives = { λ _ exit. exit ≡ Memory };

    fn from(_: NoMemory) -> Exit {
        Exit::Memory
    }
}

/// A source that isn't read whole ends the run with the same reason.
impl From<ReadEnd> for Exit {
    ghost use Rattle.std.specs.Prelude.{◌≡◌};
    ghost use Rattle.fare_commands.specs.Answer.{reading_end};

    ghost from_gives = { λ fault exit. exit ≡ reading_end fault };

    fn from(fault: ReadEnd) -> Exit {
        match fault {
            ReadEnd::Memory => Exit::Memory,
            ReadEnd::ReadFault => Exit::ReadFault,
            ReadEnd::TooLong => Exit::Limit,
        }
    }
}

/// A trip that isn't quoted ends the run with the same reason.
impl From<QuoteFault> for Exit {
    ghost use Rattle.std.specs.Prelude.{◌≡◌};
    ghost use Rattle.fare_commands.specs.Answer.{quote_end};

    ghost from_gives = { λ fault exit. exit ≡ quote_end fault };

    fn from(fault: QuoteFault) -> Exit {
        match fault {
            QuoteFault::Memory => Exit::Memory,
            QuoteFault::NoEdition(day) => Exit::NoEdition(day),
            QuoteFault::UnknownPlace(city) => Exit::UnknownPlace(city),
        }
    }
}

/// A store that isn't opened ends the run with the same reason.
impl From<KeepFault> for Exit {
    ghost use Rattle.std.specs.Prelude.{◌≡◌};
    ghost use Rattle.fare_commands.specs.Answer.{keeper_end};

    ghost from_gives = { λ fault exit. exit ≡ keeper_end fault };

    fn from(fault: KeepFault) -> Exit {
        match fault {
            KeepFault::Memory => Exit::Memory,
            KeepFault::Failed => Exit::KeeperFault,
        }
    }
}

/// A book that isn't restored ends the run with the same reason.
impl From<RestoreFault> for Exit {
    ghost use Rattle.std.specs.Prelude.{◌≡◌};
    ghost use Rattle.fare_commands.specs.Answer.{restore_end};

    ghost from_gives = { λ fault exit. exit ≡ restore_end fault };

    fn from(fault: RestoreFault) -> Exit {
        match fault {
            RestoreFault::Memory => Exit::Memory,
            RestoreFault::KeeperFault => Exit::KeeperFault,
            RestoreFault::Damaged(place, damage) => Exit::Damaged(place, damage),
        }
    }
}

/// An edition that isn't published ends the run with the same reason.
impl From<PublishFault> for Exit {
    ghost use Rattle.std.specs.Prelude.{◌≡◌};
    ghost use Rattle.fare_commands.specs.Answer.{publish_end};

    ghost from_gives = { λ fault exit. exit ≡ publish_end fault };

    fn from(fault: PublishFault) -> Exit {
        match fault {
            PublishFault::Memory => Exit::Memory,
            PublishFault::Malformed(fault) => Exit::BadTariff(fault),
            PublishFault::Differs(number) => Exit::Differs(number),
            PublishFault::Full => Exit::BookFull,
            PublishFault::KeeperFault => Exit::KeeperFault,
            PublishFault::Damaged(place, damage) => Exit::Damaged(place, damage),
        }
    }
}
