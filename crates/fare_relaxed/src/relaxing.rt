//! An edition with one kind of condition relaxed.

ghost use Rattle.std.specs.Prelude.{◌≡◌, IfOk};
ghost use Rattle.fare_relaxed.specs.Relax.{relax};

use crate::records::relaxed_records;
use crate::term::Term;
use fare_ports::NoMemory;
use fare_tariff::{CheckFault, Edition};
use std::alloc::Global;
use std::thread::Threads;

/// The edition of the same number and effective day in which each rule asks for as little by a kind of condition as a
/// record can. Its records keep their numbers, and it has no fault: the one refusal is want of memory.
pub fn relaxed<R: Threads + Sync>(
    rt: &R,
    alloc: Global,
    edition: &Edition,
    term: Term,
) -> Result<Edition, NoMemory>
    ensures { IfOk result (λ made. made ≡ relax term edition.now) }
{
    let records = relaxed_records(alloc, term, edition.records())?;
    match Edition::check(rt, alloc, edition.number(), edition.effective(), records) {
        Ok(made) => Ok(made),
        Err(CheckFault::Memory) => Err(NoMemory),
        Err(CheckFault::At { .. }) => unreachable!(),
    }
}
