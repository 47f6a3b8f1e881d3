//! The items of a batch, answered one after the other.

ghost use Rattle.std.specs.Prelude.{IfOk};
ghost use Rattle.fare_desk.specs.Batching.{AreReplied};

use crate::batcher::Batcher;
use crate::clerk::Clerk;
use fare_book::Book;
use fare_http::{Form, Reply};
use fare_ports::NoMemory;
use fare_units::Quoter;
use serde_json::Value;
use std::alloc::Global;
use std::thread::Threads;

/// A batcher that answers one item after the other.
#[derive(Clone, Copy)]
pub(crate) struct OneByOne<'b, Q> {
    /// The book in which it answers.
    pub book: &'b Book,
    /// What finds the best construction of each item.
    pub quoter: &'b Q,
}

impl<Q: Quoter> Batcher for OneByOne<'_, Q> {
    ghost editions = { λ batcher. batcher.book.now.editions };

    fn replies<R: Threads + Sync>(
        &self,
        rt: &R,
        alloc: Global,
        form: Form,
        items: &[Value],
    ) -> Result<Vec<Option<Reply>>, NoMemory> {
        let (book, quoter) = (self.book, self.quoter);
        replies_in_turn(rt, alloc, &Clerk { book, quoter, form }, items)
    }
}

/// The replies of a clerk to the items, one after the other.
fn replies_in_turn<R: Threads + Sync, Q: Quoter>(
    rt: &R,
    alloc: Global,
    clerk: &Clerk<'_, Q>,
    items: &[Value],
) -> Result<Vec<Option<Reply>>, NoMemory>
    ensures { IfOk result (λ replies. AreReplied clerk.now.form clerk.now.book.now.editions items.now replies.items) }
{
    let mut replies = Vec::new(alloc);
    for item in items {
        let reply = clerk.item_reply(rt, alloc, item)?;
        replies.push(Some(reply))?;
    }
    Ok(replies)
}
