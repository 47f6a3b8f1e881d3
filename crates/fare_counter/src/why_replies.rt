//! The reply to a trip of which it is asked what would make it cheaper.

ghost use Rattle.std.specs.Prelude.{IfOk};
ghost use Rattle.fare_trip.specs.ItineraryText.{read_trip};
ghost use Rattle.fare_counter.specs.WhyReply.{IsReasonsReply, IsWhyReply};

use crate::reasoner::Reasoner;
use fare_desk::{Clerk, body_reply, fault_reply, refusal_reply};
use fare_http::{Reply, Status};
use fare_ports::NoMemory;
use fare_trip::{Trip, TripFault, read_trip};
use std::alloc::Global;
use std::thread::Threads;

/// The reply to the text of an itinerary: the reasons of its trip, or its first fault.
pub(crate) fn why_reply<R: Threads + Sync, Q: Reasoner>(
    rt: &R,
    alloc: Global,
    clerk: &Clerk<'_, Q>,
    body: &[u8],
) -> Result<Reply, NoMemory>
    ensures { IfOk result (IsWhyReply clerk.now.form clerk.now.book.now.editions (read_trip body.now)) }
{
    match read_trip(alloc, body) {
        Ok(trip) => reasons_reply(rt, alloc, clerk, &trip),
        Err(TripFault::Memory) => Err(NoMemory),
        Err(fault) => fault_reply(alloc, clerk.form, fault),
    }
}

/// The reply to a trip: its reasons, or why there are none.
fn reasons_reply<R: Threads + Sync, Q: Reasoner>(
    rt: &R,
    alloc: Global,
    clerk: &Clerk<'_, Q>,
    trip: &Trip,
) -> Result<Reply, NoMemory>
    ensures { IfOk result (IsReasonsReply clerk.now.form clerk.now.book.now.editions trip.now) }
{
    match Q::reasons(rt, alloc, clerk, trip) {
        Ok(text) => Ok(body_reply(clerk.form, Status::Okay, text)),
        Err(fault) => refusal_reply(alloc, clerk.form, &fault),
    }
}
