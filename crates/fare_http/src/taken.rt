ghost use Rattle.std.specs.Prelude.{◌≡◌, ◌≤◌, ◌⊎◌};
ghost use Rattle.fare_ports.specs.Cause.{Rose};
ghost use Rattle.fare_http.specs.Heads.{Takes};
ghost use Rattle.fare_http.specs.Requests.{IsWhole};
ghost use Rattle.fare_http.specs.Refusals.{IfWhole, IfFixed, OnCut, IsRefused, EndsInside, IsFixed};

use crate::{
    Allow, BodyFault, Form, NoHead, NoPiece, NoRequest, Reply, Request, Status, read_whole,
};
use fare_ports::{Bytes, Door, NoMemory};
use std::alloc::Global;

/// What was read from a connection.
#[derive(Drop)]
pub enum Taken {
    /// A whole request.
    Whole(Request),
    /// Bytes that have a fixed answer, which is this one.
    Fixed(Reply),
    /// Memory was wanting.
    NoMemory,
    /// The connection ended before its request was whole, or a read failed, and the door's count
    /// of cuts rose.
    Cut,
}

/// Reads one request from the current connection.
pub fn read_request<D: Door>(alloc: Global, door: &mut D) -> Taken
    ensures whole { IfWhole result
        (λ request. Takes (D.left door.old) (D.left door.new) (IsWhole request)) }
    ensures fixed { IfFixed result
        (λ reply. Takes (D.left door.old) (D.left door.new) (IsRefused reply)) }
    ensures cut { OnCut result
        (Takes (D.left door.old) (D.left door.new) (EndsInside (D.left door.new))
        ⊎ Rose (D.cuts door.old) (D.cuts door.new)) }
    ensures never_falls { D.cuts door.old ≤ D.cuts door.new }
    ensures sent { D.sent door.new ≡ D.sent door.old }
    ensures waiting { D.waiting door.new ≡ D.waiting door.old }
    ensures held { D.held door.new ≡ D.held door.old }
    ensures current { D.current door.new ≡ D.current door.old }
    ensures port { D.listens_at door.new ≡ D.listens_at door.old }
    ensures faults { D.faults door.new ≡ D.faults door.old }
{
    match read_whole(alloc, door) {
        Ok(request) => Taken::Whole(request),
        Err(NoRequest::Head(NoHead::Bad)) => fixed(alloc, Status::BadRequest, b"BAD HEAD\n"),
        Err(NoRequest::Head(NoHead::Limit)) => fixed(alloc, Status::ContentTooLarge, b"LIMIT\n"),
        Err(NoRequest::Length(BodyFault::Coded)) => {
            fixed(alloc, Status::BadRequest, b"CODED BODY\n")
        }
        Err(NoRequest::Length(BodyFault::BadLength)) => {
            fixed(alloc, Status::BadRequest, b"BAD LENGTH\n")
        }
        Err(NoRequest::Length(BodyFault::TooLong)) => {
            fixed(alloc, Status::ContentTooLarge, b"LIMIT\n")
        }
        Err(NoRequest::Head(NoHead::Ended)) => Taken::Cut,
        Err(NoRequest::Body(NoPiece::Ended)) => Taken::Cut,
        Err(NoRequest::Head(NoHead::Failed)) => Taken::Cut,
        Err(NoRequest::Body(NoPiece::Failed)) => Taken::Cut,
        Err(_) => Taken::NoMemory,
    }
}

/// A fixed answer with this status and plain text, and no word of what is allowed.
fn fixed(alloc: Global, status: Status, text: &[u8]) -> Taken
    ensures { IsFixed status text.now result }
{
    let mut body = Bytes::new(alloc);
    match body.extend(text) {
        Ok(()) => Taken::Fixed(Reply {
            status,
            form: Form::Text,
            allow: Allow::Unsaid,
            body,
        }),
        Err(NoMemory) => Taken::NoMemory,
    }
}
