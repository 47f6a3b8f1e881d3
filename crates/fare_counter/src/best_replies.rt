//! The reply to a trip whose first constructions are asked for.

ghost use Rattle.std.specs.Prelude.{◌≡◌, ◌≤◌, IfOk, IfSome};
ghost use Rattle.fare_trip.specs.ItineraryText.{read_trip};
ghost use Rattle.fare_answers.specs.Answers.{Answers};
ghost use Rattle.fare_counter.specs.BestReply.{BestIn, IsBestReply, IsFirstOf, IsFirstReply, asked_count, before_count};
ghost use Rattle.fare_counter.specs.BestReply.{count_text};

use fare_answers::QuoteFault;
use fare_book::Book;
use fare_codes::{MOST_BEST, read_number};
use fare_desk::{body_reply, fault_reply, no_route_reply, refusal_reply};
use fare_http::{Form, Reply, Status};
use fare_listing::{best_json, best_text};
use fare_ports::NoMemory;
use fare_trip::{Trip, TripFault, read_trip};
use std::alloc::Global;

/// The reply to the text of an itinerary whose first constructions are asked for, as many as a path names.
pub(crate) fn best_reply(
    alloc: Global,
    form: Form,
    book: &Book,
    path: &str,
    body: &[u8],
) -> Result<Reply, NoMemory>
    ensures { IfOk result
        (IsBestReply form book.now.editions (asked_count (count_text form path.now)) body.now) }
{
    match asked_count(behind(form, path)) {
        None => no_route_reply(alloc, form),
        Some(k) => first_reply(alloc, form, book, k, body),
    }
}

/// What stands in a path of a form behind `/best/`.
fn behind(form: Form, path: &str) -> &[u8]
    ensures { result.now ≡ count_text form path.now }
{
    let bytes = path.as_bytes();
    &bytes[before_count(form).len().min(bytes.len())..]
}

/// What stands in a path of a form before the number of constructions.
fn before_count(form: Form) -> &'static str
    ensures { result.now ≡ before_count form }
{
    match form {
        Form::Text => "/best/",
        Form::Json => "/json/best/",
    }
}

/// How many constructions a text asks for, if it may.
#[tactic(auto, unfolding(fare_csv::specs::Numbers::above_zero))]
fn asked_count(text: &[u8]) -> Option<u32>
    ensures value { result ≡ asked_count text.now }
    ensures some { IfSome result (λ k. 1 ≤ k) }
    ensures few { IfSome result (λ k. k ≤ MOST_BEST) }
{
    match read_number(text, MOST_BEST as u32) {
        Some(0) => None,
        number => number,
    }
}

/// The reply to the text of an itinerary: the first constructions of its trip, or its first fault.
fn first_reply(
    alloc: Global,
    form: Form,
    book: &Book,
    k: u32,
    body: &[u8],
) -> Result<Reply, NoMemory>
    requires some { 1 ≤ k }
    requires few { k ≤ MOST_BEST }
    ensures { IfOk result (IsFirstOf form book.now.editions k (read_trip body.now)) }
{
    match read_trip(alloc, body) {
        Ok(trip) => trip_reply(alloc, form, book, k, &trip),
        Err(TripFault::Memory) => Err(NoMemory),
        Err(fault) => fault_reply(alloc, form, fault),
    }
}

/// The reply to a trip: its first constructions, or why there are none.
fn trip_reply(
    alloc: Global,
    form: Form,
    book: &Book,
    k: u32,
    trip: &Trip,
) -> Result<Reply, NoMemory>
    requires some { 1 ≤ k }
    requires few { k ≤ MOST_BEST }
    ensures { IfOk result (IsFirstReply form book.now.editions k trip.now) }
{
    match best_in(alloc, form, book, k, trip) {
        Ok(text) => Ok(body_reply(form, Status::Okay, text)),
        Err(fault) => refusal_reply(alloc, form, &fault),
    }
}

/// The first constructions of a trip: their text or the JSON answer, or why there are none.
fn best_in(
    alloc: Global,
    form: Form,
    book: &Book,
    k: u32,
    trip: &Trip,
) -> Result<Vec<u8>, QuoteFault>
    requires some { 1 ≤ k }
    requires few { k ≤ MOST_BEST }
    ensures { Answers (BestIn form book.now.editions trip.now k) result }
{
    match form {
        Form::Text => best_text(alloc, book, trip, k),
        Form::Json => best_json(alloc, book, trip, k),
    }
}
