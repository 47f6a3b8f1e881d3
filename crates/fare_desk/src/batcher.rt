//! What answers the items of a batch.

ghost use Rattle.std.specs.Prelude.{◌≤◌, IfOk, length};
ghost use Rattle.std.specs.Thread.{IsSync};
ghost use Rattle.fare_desk.specs.Batching.{AreReplied};

use fare_http::{Form, Reply};
use fare_ports::NoMemory;
use serde_json::Value;
use std::alloc::Global;
use std::thread::Threads;

/// The most items of a batch.
pub const MOST_ITEMS: usize = 256;

/// What answers the items of a batch over the editions of a book, in whatever order, and brings the replies in theirs.
pub trait Batcher {
    ghost use Rattle.std.specs.Prelude.{List};
    ghost use Rattle.fare_tariff.specs.Tariff.{Tariff};

    /// The editions over which it answers.
    ghost editions: { Self → List Tariff };

    /// The reply to each item, in order. One that isn't there found memory wanting. The call's one refusal is want of
    /// memory.
    fn replies<R: Threads + Sync>(
        &self,
        rt: &R,
        alloc: Global,
        form: Form,
        items: &[Value],
    ) -> Result<Vec<Option<Reply>>, NoMemory>
        requires row { IsSync R.row }
        requires few { length items.now ≤ MOST_ITEMS }
        ensures { IfOk result (λ replies. AreReplied form (editions self.now) items.now replies.items) };
}
