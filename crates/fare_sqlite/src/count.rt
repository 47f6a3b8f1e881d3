ghost use Rattle.std.specs.Prelude.{◌≡◌, ◌↔◌, ◌≤◌, OnOk, IsErrOf};
ghost use Rattle.fare_ports.specs.Cause.{Rose};

use fare_ports::KeepFault;
use sqlite::{Error, ErrorCode};

/// What a refused statement means to a keeper: `Memory` where memory was wanting, and else `Failed`.
pub fn fault_of(error: Error) -> KeepFault
    ensures { (result ≡ KeepFault.Memory) ↔ (error ≡ Error.SqliteFailure ErrorCode.OutOfMemory) }
{
    match error {
        Error::SqliteFailure(ErrorCode::OutOfMemory) => KeepFault::Memory,
        _ => KeepFault::Failed,
    }
}

/// Hands the answer on, and raises the count where it is a failure. The count stays at the last
/// value of a u64.
pub fn counted<T>(faults: &mut u64, answer: Result<T, KeepFault>) -> Result<T, KeepFault>
    ensures answer { result ≡ answer }
    ensures never_falls { faults.old ≤ faults.new }
    ensures cause { IsErrOf result KeepFault.Failed → Rose faults.old faults.new }
    ensures ok { OnOk result (faults.new ≡ faults.old) }
    ensures memory { IsErrOf result KeepFault.Memory → faults.new ≡ faults.old }
{
    if let Err(KeepFault::Failed) = &answer {
        *faults = faults.saturating_add(1);
    }
    answer
}
