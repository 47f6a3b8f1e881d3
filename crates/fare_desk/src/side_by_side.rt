//! The items of a batch, answered side by side.

ghost use Rattle.std.specs.Prelude.{◌≡◌, ◌<◌, ℕ, Option, IfOk, IfSome, length, slice_index_or};
ghost use Rattle.serde_json.specs.View.{view};
ghost use Rattle.serde_json.specs.declared.value.Value.{Value};
ghost use Rattle.fare_http.specs.declared.reply.Reply.{Reply};
ghost use Rattle.fare_trip.specs.ItineraryText.{trip_of};
ghost use Rattle.fare_desk.specs.Batching.{AreReplied};
ghost use Rattle.fare_desk.specs.Quoting.{IsQuoteReply};

use crate::clerk::Clerk;
use fare_http::Reply;
use fare_ports::NoMemory;
use fare_units::Quoter;
use serde_json::Value;
use std::alloc::Global;
use std::thread;
use std::thread::Threads;

/// What answers the items of a batch side by side.
#[derive(Clone, Copy)]
pub struct SideBySide<'b, Q> {
    /// What answers each item.
    pub clerk: Clerk<'b, Q>,
    /// The most threads.
    pub threads: usize,
}

impl<Q: Quoter + Sync> SideBySide<'_, Q> {
    /// The reply to each item, in order. One that isn't there found memory wanting.
    pub fn replies<R: Threads + Sync>(
        &self,
        rt: &R,
        alloc: Global,
        items: &[Value],
    ) -> Result<Vec<Option<Reply>>, NoMemory>
        requires { 0 < self.now.threads }
        ensures { IfOk result
            (λ replies. AreReplied self.now.clerk.form self.now.clerk.book.now.editions items.now replies.items) }
    {
        let mut replies = Vec::new(alloc);
        replies.resize_with(items.len(), || None)?;
        answer_each(rt, alloc, self, items, replies.as_mut_slice());
        Ok(replies)
    }
}

/// Puts the reply to each item at its place. One that isn't there found memory wanting.
fn answer_each<R: Threads + Sync, Q: Quoter + Sync>(
    rt: &R,
    alloc: Global,
    batcher: &SideBySide<'_, Q>,
    items: &[Value],
    replies: &mut [Option<Reply>],
)
    requires some { 0 < batcher.now.threads }
    requires count { length replies.old ≡ length items.now }
    ensures { (i : ℕ) (value : Value) (reply : Option Reply) → i < length replies.old →
        IfSome (slice_index_or replies.new i reply)
        (IsQuoteReply batcher.now.clerk.form batcher.now.clerk.book.now.editions
        (trip_of (view (slice_index_or items.now i value)))) }
{
    let clerk = &batcher.clerk;
    thread::for_each_mut(
        rt,
        replies,
        batcher.threads,
        &|place: usize, reply: &mut Option<Reply>|
            requires { place < length items.now }
        { *reply = clerk.item_reply(rt, alloc, &items[place]).ok() },
    );
}
