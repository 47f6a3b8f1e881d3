//! The command `drill`.

ghost use Rattle.std.specs.Prelude.{◌≤◌};
ghost use Rattle.fare_codes.specs.declared.limits.TheConstants.{LAST_SEED, MOST_EXTRA, MOST_SECTORS};
ghost use Rattle.fare_commands.specs.Answer.{IsDoneOr};
ghost use Rattle.fare_commands.specs.DrillOutcome.{Drills};
ghost use Rattle.fare_commands.specs.Ends.{IsRefusalOfDrill};
ghost use Rattle.fare_commands.specs.Steps.{Answers};

use crate::context::Context;
use crate::exit::Exit;
use crate::outcome::Outcome;
use fare_drill::{drill_input, drill_text};
use fare_units::Quoter;
use std::thread::Threads;

/// Quotes the generated trip of a seed in its generated edition, and sums that up.
pub fn drill<R: Threads + Sync>(
    context: &Context<'_, R>,
    seed: u32,
    sectors: u32,
    extra: u32,
) -> Result<Outcome, Exit>
    requires seed { seed ≤ LAST_SEED }
    requires some { 1 ≤ sectors }
    requires few { sectors ≤ MOST_SECTORS }
    requires few_extra { extra ≤ MOST_EXTRA }
    ensures answer { Answers (Drills seed sectors extra) result }
    ensures ends { IsDoneOr IsRefusalOfDrill result }
{
    let (edition, trip) = drill_input(context.rt, context.alloc, seed, sectors, extra)?;
    let records = edition.records().len() as u32;
    let best = context
        .quoter
        .quote(context.rt, context.alloc, &edition, &trip)?;
    let text = drill_text(context.alloc, seed, sectors, records, best.as_ref())?;
    Ok(Outcome::done(text))
}
