ghost use Rattle.std.specs.Prelude.{◌≡◌};

use fare_book::Damage;
use fare_codes::{City, Day};
use fare_csv::TextFault;
use fare_trip::TripFault;

/// What a run ended in.
#[derive(Drop)]
pub enum Exit {
    /// The output is the defined text, whole.
    Done,
    /// The words of the command line are not taken.
    Usage,
    /// The tariff text has this first fault.
    BadTariff(TextFault),
    /// The itinerary has this first fault.
    BadTrip(TripFault),
    /// The source holds more bytes than the command allows.
    Limit,
    /// No edition is selected by this sale day.
    NoEdition(Day),
    /// This is the first point of the trip that the edition doesn't know.
    UnknownPlace(City),
    /// A read of the source failed.
    ReadFault,
    /// A write to the sink failed; a prefix of the text was written.
    WriteFault,
    /// A call of the store failed.
    KeeperFault,
    /// A call of the door failed.
    DoorFault,
    /// The edition of this number stands with another effective day or other records.
    Differs(u32),
    /// The book holds 32 editions, and none of the number.
    BookFull,
    /// The stored body at this place is damaged so.
    Damaged(u32, Damage),
    /// No edition of the book has this number.
    NoSuch(u32),
    /// Memory was wanting.
    Memory,
}

impl Exit {
    ghost use Rattle.fare_commands.specs.Exit.{status_of};

    /// The program's status.
    pub fn status(&self) -> u8
        ensures { result ≡ status_of self.now }
    {
        match self {
            Exit::Done => 0,
            Exit::Usage => 2,
            Exit::BadTariff(_) => 3,
            Exit::BadTrip(_) => 4,
            Exit::Limit => 5,
            Exit::NoEdition(_) => 6,
            Exit::UnknownPlace(_) => 7,
            Exit::ReadFault => 8,
            Exit::WriteFault => 9,
            Exit::KeeperFault => 10,
            Exit::DoorFault => 11,
            Exit::Differs(_) => 12,
            Exit::BookFull => 13,
            Exit::Damaged(_, _) => 14,
            Exit::NoSuch(_) => 15,
            Exit::Memory => 20,
        }
    }
}
