//! What the served desk answers that changes nothing.

ghost use Rattle.std.specs.Prelude.{◌≡◌, ◌↔◌, None, Some, IsTrue, codes};
ghost use Rattle.fare_counter.specs.Counter.{IsCounterAnswer};
ghost use Rattle.fare_counter.specs.Routes.{counter_route_of};
ghost use Rattle.fare_desk.specs.Routes.{route_of};
ghost use Rattle.fare_desk.specs.declared.routes.Route.TheVariants.{Batch};

use fare_counter::CounterFront;
use fare_desk::{Batcher, Clerk, Route, SideBySide, batch_reply, form_of, is_method};
use fare_http::{Form, Front, Reply};
use fare_json::OneMethod;
use fare_ports::NoMemory;
use fare_split::{SplitQuoter, Turnstile};
use http::Method;
use serde_json::Value;
use std::alloc::Global;
use std::thread::Threads;

/// What the served desk answers that changes nothing: all that its counter does. The items of a batch are answered side
/// by side, by as many threads as there are workers, and each of several items by one worker.
#[derive(Drop)]
pub struct ServedFront<'s, 'k> {
    /// What answers every request.
    pub counter: CounterFront<'s, SplitQuoter<'k, Turnstile>>,
}

impl ServedFront<'_, '_> {
    /// Whether a request is a batch, plain or in JSON, that is asked by the route's method.
    fn is_batch(&self, method: &Method, path: &str) -> bool
        ensures { IsTrue result ↔
            ((counter_route_of path.now ≡ None) × (route_of path.now ≡ Some Batch) × (method.now ≡ codes "POST")) }
    {
        self.counter.routes.find(path).is_none()
            && self.counter.desk.routes.find(path) == Some(Route::Batch)
            && is_method(method, OneMethod::Post)
    }
}

impl Batcher for ServedFront<'_, '_> {
    ghost editions = { λ front. front.counter.desk.book.now.editions };

    fn replies<R: Threads + Sync>(
        &self,
        rt: &R,
        alloc: Global,
        form: Form,
        items: &[Value],
    ) -> Result<Vec<Option<Reply>>, NoMemory> {
        let book = self.counter.desk.book;
        let all = self.counter.desk.quoter;
        if items.len() == 1 {
            let clerk = Clerk {
                book,
                quoter: all,
                form,
            };
            return SideBySide { clerk, threads: 1 }.replies(rt, alloc, items);
        }
        let one = SplitQuoter::new(1, all.gate);
        let clerk = Clerk {
            book,
            quoter: &one,
            form,
        };
        let threads = all.workers as usize;
        SideBySide { clerk, threads }.replies(rt, alloc, items)
    }
}

impl Front for ServedFront<'_, '_> {
    ghost reply = { λ front method path body reply.
        IsCounterAnswer front.counter.desk.book.now.editions method path body reply };

    #[tactic(auto, using(crate::proofs::BatchLemmas::if_batch_answered))]
    fn view<R: Threads + Sync>(
        &self,
        rt: &R,
        alloc: Global,
        method: &Method,
        path: &str,
        body: &[u8],
    ) -> Result<Reply, NoMemory> {
        if self.is_batch(method, path) {
            return batch_reply(rt, alloc, form_of(path), self, body);
        }
        self.counter.view(rt, alloc, method, path, body)
    }
}
