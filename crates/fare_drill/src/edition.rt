//! The edition of a drill.

ghost use Rattle.std.specs.Prelude.{◌≡◌, ◌≤◌, IfOk};
ghost use Rattle.fare_codes.specs.declared.limits.TheConstants.{MOST_EXTRA, MOST_SECTORS};
ghost use Rattle.fare_drill.specs.Drill.{drill_tariff};

use crate::days::sale_day;
use crate::records::drill_records;
use fare_ports::NoMemory;
use fare_tariff::{CheckFault, Edition};
use std::alloc::Global;
use std::thread::Threads;

/// The edition of a drill. None of its records has a fault.
#[tactic(auto, using(crate::proofs::Valid::drill_is_edition))]
pub(crate) fn drill_edition<R: Threads + Sync>(
    rt: &R,
    alloc: Global,
    seed: u32,
    sectors: u32,
    extra: u32,
) -> Result<Edition, NoMemory>
    requires few { sectors ≤ MOST_SECTORS }
    requires few_extra { extra ≤ MOST_EXTRA }
    ensures { IfOk result (λ edition. edition ≡ drill_tariff seed sectors extra) }
{
    let records = drill_records(alloc, seed, sectors, extra)?;
    match Edition::check(rt, alloc, 1, sale_day(), records) {
        Ok(edition) => Ok(edition),
        Err(CheckFault::Memory) => Err(NoMemory),
        Err(CheckFault::At { .. }) => unreachable!(),
    }
}
