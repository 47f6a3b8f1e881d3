ghost use Rattle.std.specs.Prelude.{◌≡◌, ◌≢◌, ◌<◌, ◌≤◌, length, None, Ok, Err};
ghost use Rattle.std.specs.Prelude.{IfOk, IfSome, OnOk, IsErrOf};
ghost use Rattle.std.specs.Io.KnownBytes.{Consumes, IsAtEnd};
ghost use Rattle.httparse.specs.Grammar.{HasNoRequest, NeverHasRequest};
ghost use Rattle.httparse.specs.Spans.{IsRequestWithin, IsRequestOf, RequestExceeds, RequestOverflows};
ghost use Rattle.fare_ports.specs.Cause.{Rose};
ghost use Rattle.fare_http.specs.Heads.{Takes, IsOverLimit, EndsEarly, head_fault};

use crate::piece::{NoPiece, read_piece};
use fare_ports::Door;
use httparse::spans::{HeaderSpan, RequestSpans, parse_request};
use httparse::{Error, Status};
use std::alloc::Global;

/// The most bytes of a head.
pub const MOST_HEAD: usize = 16_384;

/// The most fields of a head.
pub const MOST_FIELDS: usize = 64;

/// A whole head, with what came behind it.
#[derive(Drop)]
pub struct Head {
    /// The bytes that were taken of the connection.
    pub taken: Vec<u8>,
    /// Where the parts of the head stand in them.
    pub spans: RequestSpans,
}

/// Why a connection has no head of a request.
#[derive(Clone, Copy, Debug, PartialEq, Eq)]
pub enum NoHead {
    /// Memory was wanting.
    Memory,
    /// No head can begin with the bytes that came.
    Bad,
    /// There is no whole head in `MOST_HEAD` bytes, or it has more than `MOST_FIELDS` fields.
    Limit,
    /// The connection ended before the head was whole.
    Ended,
    /// A read failed, and the door's count of cuts rose.
    Failed,
}

impl From<NoPiece> for NoHead {
    ghost from_gives = { λ fault e. e ≡ head_fault fault };

    fn from(fault: NoPiece) -> Self {
        match fault {
            NoPiece::Memory => NoHead::Memory,
            NoPiece::Ended => NoHead::Ended,
            NoPiece::Failed => NoHead::Failed,
        }
    }
}

/// Reads from the current connection until the head of a request is whole, and puts where its
/// fields are to the front of `fields`.
///
/// The answer is the same in whatever pieces the bytes come. It may take bytes behind the head.
pub fn read_head<D: Door>(
    alloc: Global,
    door: &mut D,
    fields: &mut [HeaderSpan],
) -> Result<Head, NoHead>
    requires { length fields.old ≡ MOST_FIELDS }
    ensures taken { IfOk result
        (λ head. Consumes (D.left door.old) (D.left door.new) head.taken.items) }
    ensures whole { IfOk result (λ head. IsRequestOf head.taken.items fields.new head.spans) }
    ensures within { IfOk result (λ head. IsRequestWithin head.taken.items fields.new head.spans) }
    ensures most { IfOk result (λ head. length head.taken.items ≤ MOST_HEAD) }

    ensures bad { IsErrOf result NoHead.Bad →
        Takes (D.left door.old) (D.left door.new) NeverHasRequest }
    ensures limit { IsErrOf result NoHead.Limit →
        Takes (D.left door.old) (D.left door.new) IsOverLimit }
    ensures ended { IsErrOf result NoHead.Ended →
        Takes (D.left door.old) (D.left door.new) (EndsEarly (D.left door.new)) }
    ensures cause { IsErrOf result NoHead.Failed → Rose (D.cuts door.old) (D.cuts door.new) }

    ensures never_falls { D.cuts door.old ≤ D.cuts door.new }
    ensures sent { D.sent door.new ≡ D.sent door.old }
    ensures waiting { D.waiting door.new ≡ D.waiting door.old }
    ensures held { D.held door.new ≡ D.held door.old }
    ensures current { D.current door.new ≡ D.current door.old }
    ensures port { D.listens_at door.new ≡ D.listens_at door.old }
    ensures faults { D.faults door.new ≡ D.faults door.old }
{
    let mut taken = Vec::new(alloc);
    'pieces: loop {
        if let Some(spans) = look(&taken, fields)? {
            return Ok(Head { taken, spans });
        }
        if taken.len() == MOST_HEAD {
            return Err(NoHead::Limit);
        }
        read_piece(door, &mut taken, MOST_HEAD)?;
    }
}

// The head that begins these bytes, if it is whole already.
fn look(taken: &[u8], fields: &mut [HeaderSpan]) -> Result<Option<RequestSpans>, NoHead>
    requires { length fields.old ≡ MOST_FIELDS }
    ensures whole { IfOk result (λ found. IfSome found (IsRequestOf taken.now fields.new)) }
    ensures within { IfOk result (λ found. IfSome found (IsRequestWithin taken.now fields.new)) }
    ensures partial { result ≡ Ok None → HasNoRequest taken.now }
    ensures bad { IsErrOf result NoHead.Bad → NeverHasRequest taken.now }
    ensures limit { IsErrOf result NoHead.Limit → IsOverLimit taken.now }
    ensures not_ended { result ≢ Err NoHead.Ended }
    ensures not_failed { result ≢ Err NoHead.Failed }
{
    match parse_request(taken, fields) {
        Ok(Status::Complete(spans)) => Ok(Some(spans)),
        Ok(Status::Partial) => Ok(None),
        Err(Error::TooManyHeaders) => Err(NoHead::Limit),
        Err(_) => Err(NoHead::Bad),
    }
}
