//! The command `check`.

ghost use Rattle.std.specs.Prelude.{◌≡◌, IfErr, IfOk, IfSome, ⊤};
ghost use Rattle.fare_commands.specs.CheckOutcome.{AnswersCheck, OwnExit, checked, checked_end};
ghost use Rattle.fare_commands.specs.Ends.{IsRefusalOfCheck};
ghost use Rattle.fare_commands.specs.Steps.{Answers, IsReading};

use crate::context::Context;
use crate::exit::Exit;
use crate::outcome::Outcome;
use crate::source::source_up_to;
use fare_check::check_text;
use fare_csv::TextFault;
use fare_ports::{MOST_TEXT, NoMemory, Source};
use std::thread::Threads;

/// Tells every fault of the source's tariff.
pub fn check<R: Threads + Sync, S: Source>(
    context: &Context<'_, R>,
    src: &mut S,
) -> Result<Outcome, Exit>
    ensures answer { IfSome (S.left src.old) (λ source. Answers (AnswersCheck source) result) }
    ensures own { IfOk result (λ ending. OwnExit ⊤ ending.exit) }
    ensures ends { IfErr result IsRefusalOfCheck }
    ensures reading { IsReading MOST_TEXT result
        (S.left src.old) (S.left src.new) (S.faults src.old) (S.faults src.new) }
{
    let source = source_up_to(context.alloc, src, MOST_TEXT as usize)?;
    Ok(checked(context, source.as_slice())?)
}

/// What a tariff text comes to that is checked.
fn checked<R: Threads + Sync>(context: &Context<'_, R>, text: &[u8]) -> Result<Outcome, NoMemory>
    ensures value { IfOk result (λ ending. ending ≡ checked text.now) }
    ensures own { IfOk result (λ ending. OwnExit ⊤ ending.exit) }
{
    let checked = check_text(context.rt, context.alloc, text)?;
    Ok(Outcome {
        exit: checked_end(checked.fault),
        text: checked.text,
    })
}

/// What a check with this first fault ends in.
fn checked_end(fault: Option<TextFault>) -> Exit
    ensures end { result ≡ checked_end fault }
    ensures own { OwnExit ⊤ result }
{
    match fault {
        None => Exit::Done,
        Some(fault) => Exit::BadTariff(fault),
    }
}
