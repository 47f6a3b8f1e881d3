//! The records of a text that can be read.

ghost use Rattle.std.specs.Prelude.{◌≡◌, IfOk};
ghost use Rattle.fare_csv.specs.Rows.{rows_of};
ghost use Rattle.fare_check.specs.Faults.{filed_records};

use fare_csv::{TextFault, read_spelled};
use fare_ports::NoMemory;
use fare_tariff::Record;
use std::alloc::Global;
use std::thread::Threads;

/// The records of a text; none where it has a fault of reading.
pub(crate) fn records_of_text<R: Threads + Sync>(
    rt: &R,
    alloc: Global,
    bytes: &[u8],
) -> Result<Vec<Record>, NoMemory>
    ensures { IfOk result (λ records. records.items ≡ filed_records (rows_of bytes.now)) }
{
    match read_spelled(rt, alloc, bytes) {
        Ok(spelled) => Ok(spelled.records),
        Err(TextFault::Memory) => Err(NoMemory),
        Err(_) => Ok(Vec::new(alloc)),
    }
}
