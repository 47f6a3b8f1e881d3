//! What answers itineraries in one form.

ghost use Rattle.std.specs.Prelude.{◌≡◌, Err, IfOk, IsErr};
ghost use Rattle.serde_json.specs.View.{view};
ghost use Rattle.fare_trip.specs.ItineraryText.{read_trip, trip_of};
ghost use Rattle.fare_answers.specs.Answers.{Answers};
ghost use Rattle.fare_desk.specs.Quoting.{IsQuoteReply, IsTripReply, QuotesIn, fault_reply, refusal_reply};

use crate::replies::{body_reply, refused_reply};
use fare_answers::{QuoteFault, quote_text};
use fare_book::Book;
use fare_http::{Form, Reply, Status};
use fare_json::{Fault, quote_json};
use fare_ports::NoMemory;
use fare_trip::{Trip, TripFault, read_trip, trip_of};
use fare_units::Quoter;
use serde_json::Value;
use std::alloc::Global;
use std::thread::Threads;

/// What answers itineraries over a book, plain or in JSON.
#[derive(Clone, Copy)]
pub struct Clerk<'b, Q> {
    /// The book in which it answers.
    pub book: &'b Book,
    /// What finds the best constructions.
    pub quoter: &'b Q,
    /// The form of its replies.
    pub form: Form,
}

impl<Q: Quoter> Clerk<'_, Q> {
    /// The reply to the text of an itinerary: the quotation of its trip, or its first fault.
    pub(crate) fn quote_reply<R: Threads + Sync>(
        &self,
        rt: &R,
        alloc: Global,
        text: &[u8],
    ) -> Result<Reply, NoMemory>
        ensures { IfOk result (IsQuoteReply self.now.form self.now.book.now.editions (read_trip text.now)) }
    {
        match read_trip(alloc, text) {
            Ok(trip) => self.trip_reply(rt, alloc, &trip),
            Err(TripFault::Memory) => Err(NoMemory),
            Err(fault) => fault_reply(alloc, self.form, fault),
        }
    }

    /// The reply to an item of a batch: the quotation of its trip, or its first fault.
    pub(crate) fn item_reply<R: Threads + Sync>(
        &self,
        rt: &R,
        alloc: Global,
        item: &Value,
    ) -> Result<Reply, NoMemory>
        ensures { IfOk result
            (IsQuoteReply self.now.form self.now.book.now.editions (trip_of (view item.now))) }
    {
        match trip_of(alloc, item) {
            Ok(trip) => self.trip_reply(rt, alloc, &trip),
            Err(fault) => fault_reply(alloc, self.form, fault),
        }
    }

    /// The reply to a trip: its quotation, or why there is none.
    fn trip_reply<R: Threads + Sync>(
        &self,
        rt: &R,
        alloc: Global,
        trip: &Trip,
    ) -> Result<Reply, NoMemory>
        ensures { IfOk result (IsTripReply self.now.form self.now.book.now.editions trip.now) }
    {
        match self.quotation(rt, alloc, trip) {
            Ok(text) => Ok(body_reply(self.form, Status::Okay, text)),
            Err(fault) => refusal_reply(alloc, self.form, &fault),
        }
    }

    /// The quotation of a trip: its worksheet or its JSON answer, or why there is none.
    fn quotation<R: Threads + Sync>(
        &self,
        rt: &R,
        alloc: Global,
        trip: &Trip,
    ) -> Result<Vec<u8>, QuoteFault>
        ensures { Answers (QuotesIn self.now.form self.now.book.now.editions trip.now) result }
    {
        match self.form {
            Form::Text => quote_text(rt, alloc, self.book, self.quoter, trip),
            Form::Json => quote_json(rt, alloc, self.book, self.quoter, trip),
        }
    }
}

/// The reply to a trip that isn't answered. Want of memory has none.
pub fn refusal_reply(alloc: Global, form: Form, fault: &QuoteFault) -> Result<Reply, NoMemory>
    ensures reply { IfOk result (λ reply. reply ≡ refusal_reply form fault.now) }
    ensures memory { fault.now ≡ QuoteFault.Memory → IsErr result }
{
    let status = Status::UnprocessableContent;
    match *fault {
        QuoteFault::Memory => Err(NoMemory),
        QuoteFault::NoEdition(day) => refused_reply(alloc, form, status, &Fault::NoEdition(day)),
        QuoteFault::UnknownPlace(city) => {
            refused_reply(alloc, form, status, &Fault::UnknownPlace(city))
        }
    }
}

/// The reply to an itinerary that stands for no trip.
pub fn fault_reply(alloc: Global, form: Form, fault: TripFault) -> Result<Reply, NoMemory>
    ensures { IfOk result (λ reply. reply ≡ fault_reply form fault) }
{
    refused_reply(alloc, form, Status::BadRequest, &Fault::Trip(fault))
}
