//! The refusal of a command that has its answer in JSON: its fault is written in JSON too.

ghost use Rattle.std.specs.Prelude.{◌≡◌, IfOk, true};
ghost use Rattle.fare_run.specs.JsonFault.{fault_of, told_fault};
ghost use Rattle.fare_run.specs.Limits.{limit_of};
ghost use Rattle.fare_run.specs.Refusal.{IsRefused, wants_json};

use crate::limits::limit_of;
use fare_commands::{Exit, Outcome};
use fare_json::fault_json;
use fare_ports::NoMemory;
use fare_sentences::Fault;
use fare_words::Command;
use std::alloc::Global;

/// Whether the answer of a command is wanted in JSON.
fn wants_json(asked: &Option<Command<'_>>) -> bool
    ensures { result ≡ wants_json asked.now }
{
    match asked {
        Some(
            Command::Price { json, .. } | Command::Quote { json, .. } | Command::List { json, .. },
        ) => *json,
        _ => false,
    }
}

/// The fault of an end that has a form in JSON, with how many bytes the source may hold. The first fault of a tariff
/// text is told with that text.
fn fault_of(most: u32, exit: &Exit) -> Option<Fault>
    ensures { result ≡ fault_of most exit.now }
{
    match exit {
        Exit::BadTrip(fault) => Some(Fault::Trip(*fault)),
        Exit::Limit => Some(Fault::SourceLimit(most)),
        Exit::NoEdition(day) => Some(Fault::NoEdition(*day)),
        Exit::UnknownPlace(city) => Some(Fault::UnknownPlace(*city)),
        Exit::ReadFault => Some(Fault::ReadFault),
        Exit::KeeperFault => Some(Fault::KeeperFault),
        Exit::Damaged(place, damage) => Some(Fault::Damaged(*place, *damage)),
        _ => None,
    }
}

/// The fault of a refusal in JSON; nothing where it has no such form.
fn refusal_text(
    alloc: Global,
    asked: &Option<Command<'_>>,
    exit: &Exit,
) -> Result<Vec<u8>, NoMemory>
    ensures { IfOk result (λ text. text.items ≡ told_fault (fault_of (limit_of asked.now) exit.now) true) }
{
    match fault_of(limit_of(asked), exit) {
        Some(fault) => fault_json(alloc, &fault),
        None => Ok(Vec::new(alloc)),
    }
}

/// The refusal of a command, with the text that tells it.
pub fn refused(alloc: Global, asked: &Option<Command<'_>>, exit: Exit) -> Outcome
    ensures { IsRefused asked.now exit result }
{
    if !wants_json(asked) {
        return Outcome {
            exit,
            text: Vec::new(alloc),
        };
    }
    match refusal_text(alloc, asked, &exit) {
        Ok(text) => Outcome { exit, text },
        Err(NoMemory) => Outcome {
            exit: Exit::Memory,
            text: Vec::new(alloc),
        },
    }
}
