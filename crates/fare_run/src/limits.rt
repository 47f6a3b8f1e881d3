//! How many bytes the source of a command may hold.

ghost use Rattle.std.specs.Prelude.{◌≡◌};
ghost use Rattle.fare_run.specs.Limits.{limit_of};

use fare_commands::{MOST_ITINERARY, MOST_PRICED};
use fare_ports::MOST_TEXT;
use fare_words::Command;

/// The most bytes that the source of a command may hold; one that doesn't read the source asks for none of it.
pub fn limit_of(asked: &Option<Command<'_>>) -> u32
    ensures { result ≡ limit_of asked.now }
{
    match asked {
        Some(Command::Price { .. }) => MOST_PRICED,
        Some(Command::Publish { .. }) => MOST_TEXT,
        Some(Command::Quote { .. }) => MOST_ITINERARY,
        Some(Command::Check) => MOST_TEXT,
        Some(Command::Compare { .. }) => MOST_TEXT,
        _ => 0,
    }
}
