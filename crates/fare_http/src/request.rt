ghost use Rattle.std.specs.Prelude.{◌≡◌, ◌≤◌, Err, IfOk};
ghost use Rattle.httparse.specs.Grammar.{NeverHasRequest};
ghost use Rattle.fare_http.specs.declared.lengths.BodyFault.{BodyFault};
ghost use Rattle.fare_http.specs.declared.head.NoHead.{NoHead};
ghost use Rattle.fare_http.specs.declared.piece.NoPiece.{NoPiece};
ghost use Rattle.fare_ports.specs.Cause.{Rose};
ghost use Rattle.fare_http.specs.Heads.{Takes, IsOverLimit, EndsEarly};
ghost use Rattle.fare_http.specs.Requests.{IsWhole, Announces, EndsInBody};
ghost use Rattle.fare_http.specs.declared.request.NoRequest.TheVariants.{Memory, Head, Length, Body};

use crate::body::read_body;
use crate::piece::NoPiece;
use crate::request_parts::{announced_length, begun_body, method_of, path_text};
use crate::{BodyFault, MOST_FIELDS, NoHead, PathText, read_head};
use fare_ports::{Bytes, Door, NoMemory};
use http::Method;
use httparse::spans::EMPTY_HEADER_SPAN;
use std::alloc::{AllocError, Global};

/// A whole request.
#[derive(Drop)]
pub struct Request {
    /// Its method.
    pub method: Method,
    /// Its target up to the first `?`.
    pub path: PathText,
    /// Its body.
    pub body: Bytes,
}

/// Why a connection has no whole request.
#[derive(Clone, Copy, Debug, PartialEq, Eq)]
pub enum NoRequest {
    /// Memory was wanting.
    Memory,
    /// It has no head.
    Head(NoHead),
    /// Its head announces no length of a body.
    Length(BodyFault),
    /// It has no whole body.
    Body(NoPiece),
}

impl From<AllocError> for NoRequest {
    ghost from_gives = { λ _ e. e ≡ Memory };

    fn from(_: AllocError) -> Self {
        NoRequest::Memory
    }
}

impl From<NoMemory> for NoRequest {
    ghost from_gives = { λ _ e. e ≡ Memory };

    fn from(_: NoMemory) -> Self {
        NoRequest::Memory
    }
}

impl From<NoHead> for NoRequest {
    ghost from_gives = { λ fault e. e ≡ Head fault };

    fn from(fault: NoHead) -> Self {
        NoRequest::Head(fault)
    }
}

impl From<BodyFault> for NoRequest {
    ghost from_gives = { λ fault e. e ≡ Length fault };

    fn from(fault: BodyFault) -> Self {
        NoRequest::Length(fault)
    }
}

impl From<NoPiece> for NoRequest {
    ghost from_gives = { λ fault e. e ≡ Body fault };

    fn from(fault: NoPiece) -> Self {
        NoRequest::Body(fault)
    }
}

/// Reads one request from the current connection.
pub fn read_whole<D: Door>(alloc: Global, door: &mut D) -> Result<Request, NoRequest>
    ensures whole { IfOk result
        (λ request. Takes (D.left door.old) (D.left door.new) (IsWhole request)) }
    ensures bad { result ≡ Err (NoRequest.Head NoHead.Bad) →
        Takes (D.left door.old) (D.left door.new) NeverHasRequest }
    ensures limit { result ≡ Err (NoRequest.Head NoHead.Limit) →
        Takes (D.left door.old) (D.left door.new) IsOverLimit }
    ensures head_ended { result ≡ Err (NoRequest.Head NoHead.Ended) →
        Takes (D.left door.old) (D.left door.new) (EndsEarly (D.left door.new)) }
    ensures length { (fault : BodyFault) → result ≡ Err (NoRequest.Length fault) →
        Takes (D.left door.old) (D.left door.new) (Announces (Err fault)) }
    ensures body_ended { result ≡ Err (NoRequest.Body NoPiece.Ended) →
        Takes (D.left door.old) (D.left door.new) (EndsInBody (D.left door.new)) }
    ensures head_cause { result ≡ Err (NoRequest.Head NoHead.Failed) →
        Rose (D.cuts door.old) (D.cuts door.new) }
    ensures body_cause { result ≡ Err (NoRequest.Body NoPiece.Failed) →
        Rose (D.cuts door.old) (D.cuts door.new) }
    ensures never_falls { D.cuts door.old ≤ D.cuts door.new }
    ensures sent { D.sent door.new ≡ D.sent door.old }
    ensures waiting { D.waiting door.new ≡ D.waiting door.old }
    ensures held { D.held door.new ≡ D.held door.old }
    ensures current { D.current door.new ≡ D.current door.old }
    ensures port { D.listens_at door.new ≡ D.listens_at door.old }
    ensures faults { D.faults door.new ≡ D.faults door.old }
{
    let mut fields = [EMPTY_HEADER_SPAN; MOST_FIELDS];
    let head = read_head(alloc, door, &mut fields)?;
    let announced = announced_length(&head, &fields)?;
    let method = method_of(alloc, &head, &fields)?;
    let path = path_text(alloc, &head, &fields)?;
    let begun = begun_body(alloc, &head, announced)?;
    let body = read_body(door, begun, announced)?;
    Ok(Request {
        method,
        path,
        body: Bytes::from(body),
    })
}
