//! What a JSON text asks to be audited.

ghost use Rattle.std.specs.Prelude.{◌≡◌, ◌⊎◌, Err, MatchOption, Result, option_map};
ghost use Rattle.serde_json.specs.Find.{get, as_str};
ghost use Rattle.serde_json.specs.View.{view};
ghost use Rattle.fare_audit.specs.AuditText.{IsLineReading, ReadsLine, ReadsObject, ReadsUnlessWanting, ReadsValue};
ghost use Rattle.fare_audit.specs.AuditText.{beside, line_string, trip_member};

use crate::fault::AuditFault;
use fare_line::{BadLine, Line, read_line};
use fare_ports::NoMemory;
use fare_trip::{Member, Trip, TripFault, read_json, trip_of};
use serde_json::Value;
use std::alloc::Global;

/// The line and the trip that a JSON text asks to be audited: an object whose `line` is the text of a line and whose
/// `trip` is that of an itinerary. The first fault is the answer, in this order: the text is no JSON, its value is no
/// object, there is no line or it is no string, the string is no line, there is no trip, the trip has a fault. Want of
/// memory may come for any text.
pub fn read_audit(alloc: Global, bytes: &[u8]) -> Result<(Line, Trip), AuditFault>
    ensures { ReadsUnlessWanting bytes.now result }
{
    match read_json(alloc, bytes) {
        Err(NoMemory) => Err(AuditFault::Memory),
        Ok(None) => Err(AuditFault::Trip(TripFault::NotJson)),
        Ok(Some(value)) => value_in(alloc, &value),
    }
}

/// The line and the trip of a value, which has to be an object.
fn value_in(alloc: Global, value: &Value) -> Result<(Line, Trip), AuditFault>
    ensures { ReadsValue result (view value.now) }
{
    if value.is_object() {
        object_in(alloc, value)
    } else {
        Err(AuditFault::Trip(TripFault::Bad(Member::Trip, 0)))
    }
}

/// The line and the trip of an object, whose line has to be a string.
fn object_in(alloc: Global, value: &Value) -> Result<(Line, Trip), AuditFault>
    ensures { ReadsObject (view value.now) result }
{
    match line_string(value) {
        None => Err(AuditFault::NoLine),
        Some(text) => line_in(alloc, value, text),
    }
}

/// The string of an object's line, where it has one.
fn line_string(value: &Value) -> Option<&str>
    ensures { option_map (λ s. s.now) result ≡ line_string (view value.now) }
{
    match value.get("line") {
        None => None,
        Some(line) => line.as_str(),
    }
}

/// The line of a text with the trip of an object.
fn line_in(alloc: Global, value: &Value, text: &str) -> Result<(Line, Trip), AuditFault>
    ensures { ReadsLine (view value.now) text.now result }
{
    match line_of_text(text.as_bytes()) {
        Err(bad) => Err(AuditFault::Line(bad)),
        Ok(line) => beside(line, trip_in(alloc, value.get("trip"))),
    }
}

/// The line that a text spells.
fn line_of_text(text: &[u8]) -> Result<Line, BadLine>
    ensures { IsLineReading text.now result }
{
    read_line(text)
}

/// The trip of a member, which has to be there.
fn trip_in(alloc: Global, found: Option<&Value>) -> Result<Trip, TripFault>
    ensures { result ≡ trip_member (option_map (λ v. view v.now) found.entry) }
{
    match found {
        None => Err(TripFault::Missing(Member::Trip, 0)),
        Some(value) => trip_of(alloc, value),
    }
}

/// A line with the trip that was read, or the trip's fault.
fn beside(line: Line, trip: Result<Trip, TripFault>) -> Result<(Line, Trip), AuditFault>
    ensures { result ≡ beside line trip }
{
    match trip {
        Ok(trip) => Ok((line, trip)),
        Err(fault) => Err(AuditFault::Trip(fault)),
    }
}
