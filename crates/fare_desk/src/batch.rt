//! The reply to a batch of itineraries.

ghost use Rattle.std.specs.Prelude.{◌≡◌, IfOk};
ghost use Rattle.serde_json.specs.View.{items_view, view};
ghost use Rattle.fare_desk.specs.Batching.{IsArrayReply, IsBatchReply, IsItemsReply};

use crate::batch_body::batch_body;
use crate::batcher::{Batcher, MOST_ITEMS};
use crate::clerk::fault_reply;
use crate::replies::{body_reply, refused_reply};
use fare_http::{Form, Reply, Status};
use fare_json::Fault;
use fare_ports::NoMemory;
use fare_trip::{TripFault, read_json};
use serde_json::Value;
use std::alloc::Global;
use std::thread::Threads;

/// The reply to the text of a batch, which has to be JSON.
pub fn batch_reply<R: Threads + Sync, B: Batcher>(
    rt: &R,
    alloc: Global,
    form: Form,
    batcher: &B,
    text: &[u8],
) -> Result<Reply, NoMemory>
    ensures { IfOk result (IsBatchReply form (B.editions batcher.now) text.now) }
{
    match read_json(alloc, text)? {
        Some(value) => array_reply(rt, alloc, form, batcher, &value),
        None => fault_reply(alloc, form, TripFault::NotJson),
    }
}

/// The reply to the value of a batch, which has to be an array.
fn array_reply<R: Threads + Sync, B: Batcher>(
    rt: &R,
    alloc: Global,
    form: Form,
    batcher: &B,
    value: &Value,
) -> Result<Reply, NoMemory>
    ensures { IfOk result (IsArrayReply form (B.editions batcher.now) (view value.now)) }
{
    match value.as_array() {
        Some(items) => items_reply(rt, alloc, form, batcher, items.as_slice()),
        None => refused_reply(alloc, form, Status::BadRequest, &Fault::NoBatch),
    }
}

/// The reply to the items of a batch.
#[tactic(auto, using(crate::proofs::ReplyLemmas::counted, crate::proofs::ReplyLemmas::items_answered))]
fn items_reply<R: Threads + Sync, B: Batcher>(
    rt: &R,
    alloc: Global,
    form: Form,
    batcher: &B,
    items: &[Value],
) -> Result<Reply, NoMemory>
    ensures { IfOk result (IsItemsReply form (B.editions batcher.now) (items_view items.now)) }
{
    if items.len() > MOST_ITEMS {
        return refused_reply(alloc, form, Status::ContentTooLarge, &Fault::BatchLimit);
    }
    let replies = batcher.replies(rt, alloc, form, items)?;
    let body = batch_body(alloc, form, replies.as_slice())?;
    Ok(body_reply(form, Status::Okay, body))
}
