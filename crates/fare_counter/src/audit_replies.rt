//! The reply to a line that is presented for a trip.

ghost use Rattle.std.specs.Prelude.{◌≡◌, Err, IfOk};
ghost use Rattle.fare_counter.specs.AuditReply.{IsAuditOver, IsAuditReply, IsVerdictReply, unread_reply, verdict_body};

use fare_answers::edition_for;
use fare_audit::{AuditFault, Verdict, audit, read_audit, verdict_text};
use fare_desk::{Clerk, body_reply, line_reply, refusal_reply, refused_reply};
use fare_http::{Form, Reply, Status};
use fare_json::{audit_json, fault_of_audit};
use fare_line::Line;
use fare_ports::NoMemory;
use fare_tariff::Edition;
use fare_trip::Trip;
use fare_units::Quoter;
use std::alloc::Global;
use std::thread::Threads;

/// The reply to a text that asks for an audit: the verdict, or the text's first fault.
pub(crate) fn audit_reply<R: Threads + Sync, Q: Quoter>(
    rt: &R,
    alloc: Global,
    clerk: &Clerk<'_, Q>,
    body: &[u8],
) -> Result<Reply, NoMemory>
    ensures { IfOk result (IsAuditReply clerk.now.form clerk.now.book.now.editions body.now) }
{
    match read_audit(alloc, body) {
        Ok((line, trip)) => audit_over(rt, alloc, clerk, &trip, &line),
        Err(AuditFault::Memory) => Err(NoMemory),
        Err(fault) => unread_reply(alloc, clerk.form, body, &fault),
    }
}

/// The reply to a text that asks for no audit, by its first fault.
fn unread_reply(
    alloc: Global,
    form: Form,
    body: &[u8],
    fault: &AuditFault,
) -> Result<Reply, NoMemory>
    ensures { IfOk result (λ reply. reply ≡ unread_reply form body.now fault.now) }
{
    let status = Status::BadRequest;
    match form {
        Form::Text => line_reply(alloc, status, fault.text().as_str().as_bytes()),
        Form::Json => {
            let found = fault_of_audit(alloc, body, fault)?;
            refused_reply(alloc, form, status, &found)
        }
    }
}

/// The reply to a line with its trip: the verdict in the edition for the trip, or why there is none.
fn audit_over<R: Threads + Sync, Q: Quoter>(
    rt: &R,
    alloc: Global,
    clerk: &Clerk<'_, Q>,
    trip: &Trip,
    line: &Line,
) -> Result<Reply, NoMemory>
    ensures { IfOk result (IsAuditOver clerk.now.form clerk.now.book.now.editions trip.now line.now) }
{
    match edition_for(clerk.book, trip) {
        Ok(edition) => verdict_reply(rt, alloc, clerk, edition, trip, line),
        Err(fault) => refusal_reply(alloc, clerk.form, &fault),
    }
}

/// The reply in an edition that knows all points of the trip.
fn verdict_reply<R: Threads + Sync, Q: Quoter>(
    rt: &R,
    alloc: Global,
    clerk: &Clerk<'_, Q>,
    edition: &Edition,
    trip: &Trip,
    line: &Line,
) -> Result<Reply, NoMemory>
    ensures { IfOk result (IsVerdictReply clerk.now.form edition.now trip.now line.now) }
{
    let verdict = audit(rt, alloc, clerk.quoter, edition, trip, line)?;
    let body = verdict_body(alloc, clerk.form, edition, line, &verdict)?;
    Ok(body_reply(clerk.form, Status::Okay, body))
}

/// The verdict on a line in an edition: its line of text, or the JSON answer.
fn verdict_body(
    alloc: Global,
    form: Form,
    edition: &Edition,
    line: &Line,
    verdict: &Verdict,
) -> Result<Vec<u8>, NoMemory>
    ensures { IfOk result (λ body. body.items ≡ verdict_body form edition.now line.now verdict.now) }
{
    match form {
        Form::Text => verdict_text(alloc, verdict),
        Form::Json => audit_json(alloc, edition, line, verdict),
    }
}
