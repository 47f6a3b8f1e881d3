//! Why a text asks for no audit, told by the text itself.

ghost use Rattle.std.specs.Prelude.{◌≡◌, IfOk};
ghost use Rattle.fare_sentences.specs.AuditFault.{audit_fault, audited_trip_fault, bad_fault};

use crate::fault::Fault;
use fare_audit::AuditFault;
use fare_ports::NoMemory;
use fare_trip::{Member, TripFault, read_json};
use std::alloc::Global;

/// Why a text asks for no audit, by the text and the fault that was found in it.
pub fn fault_of_audit(alloc: Global, body: &[u8], fault: &AuditFault) -> Result<Fault, NoMemory>
    ensures { IfOk result (λ found. found ≡ audit_fault body.now fault.now) }
{
    match *fault {
        AuditFault::Memory => Ok(Fault::Trip(TripFault::Memory)),
        AuditFault::Trip(fault) => audited_trip_fault(alloc, body, fault),
        AuditFault::NoLine => Ok(Fault::NoLine),
        AuditFault::Line(bad) => Ok(Fault::BadLine(bad.0)),
    }
}

/// A fault of an audit that has to do with its trip.
fn audited_trip_fault(alloc: Global, body: &[u8], fault: TripFault) -> Result<Fault, NoMemory>
    ensures { IfOk result (λ found. found ≡ audited_trip_fault body.now fault) }
{
    match fault {
        TripFault::Bad(Member::Trip, number) => bad_trip_fault(alloc, body, number),
        TripFault::Missing(Member::Trip, _) => Ok(Fault::NoTrip),
        other => Ok(Fault::Trip(other)),
    }
}

/// That a request is no object, or else that its trip is none.
fn bad_trip_fault(alloc: Global, body: &[u8], number: u32) -> Result<Fault, NoMemory>
    ensures { IfOk result (λ found. found ≡ bad_fault body.now Member.Trip number) }
{
    match read_json(alloc, body)? {
        None => Ok(Fault::NoRequest),
        Some(value) => {
            if value.as_object().is_some() {
                Ok(Fault::Trip(TripFault::Bad(Member::Trip, number)))
            } else {
                Ok(Fault::NoRequest)
            }
        }
    }
}
