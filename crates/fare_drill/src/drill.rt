//! The edition and the trip of a drill.

ghost use Rattle.std.specs.Prelude.{◌≡◌, ◌≤◌, IfOk};
ghost use Rattle.fare_codes.specs.declared.limits.TheConstants.{LAST_SEED, MOST_EXTRA, MOST_SECTORS};
ghost use Rattle.fare_drill.specs.Drill.{drill_tariff, drill_trip};

use crate::edition::drill_edition;
use crate::trip::drill_trip;
use fare_ports::NoMemory;
use fare_tariff::Edition;
use fare_trip::Trip;
use std::alloc::Global;
use std::thread::Threads;

/// The edition and the trip of a drill, by its seed, its sectors and its extra records of miles.
pub fn drill_input<R: Threads + Sync>(
    rt: &R,
    alloc: Global,
    seed: u32,
    sectors: u32,
    extra: u32,
) -> Result<(Edition, Trip), NoMemory>
    requires seed { seed ≤ LAST_SEED }
    requires some { 1 ≤ sectors }
    requires few { sectors ≤ MOST_SECTORS }
    requires few_extra { extra ≤ MOST_EXTRA }
    ensures edition { IfOk result (λ input. input.0 ≡ drill_tariff seed sectors extra) }
    ensures trip { IfOk result (λ input. input.1 ≡ drill_trip sectors) }
{
    let edition = drill_edition(rt, alloc, seed, sectors, extra)?;
    Ok((edition, drill_trip(sectors)))
}
