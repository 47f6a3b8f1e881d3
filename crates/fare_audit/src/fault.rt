//! Why a text asks for no audit.

ghost use Rattle.std.specs.Prelude.{◌≡◌, ◌++◌, codes, decimal};
ghost use Rattle.fare_audit.specs.AuditText.{fault_text};

use arrayvec::ArrayString;
use fare_line::BadLine;
use fare_text::{push_short_number, short_text};
use fare_trip::TripFault;

/// Why a text asks for no audit.
#[derive(Clone, Copy, Debug, PartialEq, Eq)]
pub enum AuditFault {
    /// Memory was wanting.
    Memory,
    /// The text is no JSON or its value is no object, or there is no trip, or the trip has this first fault.
    Trip(TripFault),
    /// There is no line, or it is no string.
    NoLine,
    /// The line's text is that of no line.
    Line(BadLine),
}

impl AuditFault {
    /// Its text, without the LF that ends the line; empty for want of memory.
    pub fn text(&self) -> ArrayString<64>
        ensures { result.bytes ≡ fault_text self.now }
    {
        match *self {
            AuditFault::Memory => ArrayString::new(),
            AuditFault::Trip(fault) => fault.text(),
            AuditFault::NoLine => short_text("LINE MISSING"),
            AuditFault::Line(bad) => bad_line_text(bad.0),
        }
    }
}

/// The text of bytes of which so many begin a line.
fn bad_line_text(count: u32) -> ArrayString<64>
    ensures { result.bytes ≡ codes "LINE " ++ decimal count }
{
    let mut text = short_text("LINE ");
    push_short_number(&mut text, count);
    text
}
