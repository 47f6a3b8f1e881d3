ghost use Rattle.std.specs.Prelude.{◌≡◌, ◌≤◌};
ghost use Rattle.fare_run.specs.Sharing.{workers_of};
ghost use Rattle.fare_run.specs.Uses.{IsWithin};

use fare_codes::MOST_WORKERS;
use fare_words::Command;

/// How many workers share a search of a command: one where it searches nothing.
#[tactic(auto, unfolding(fare_words::specs::WithinLimits::IsWithinLimits))]
pub fn workers_of(asked: &Option<Command<'_>>) -> u32
    requires { IsWithin asked.now }
    ensures workers { result ≡ workers_of asked.now }
    ensures some { 1 ≤ result }
    ensures few { result ≤ MOST_WORKERS }
{
    match asked {
        Some(
            Command::Price { workers, .. }
            | Command::Quote { workers, .. }
            | Command::Serve { workers, .. }
            | Command::Drill { workers, .. }
            | Command::Compare { workers, .. },
        ) => *workers,
        _ => 1,
    }
}
