//! The front of a counter: what is answered without a change.

ghost use Rattle.std.specs.Prelude.{IfOk};
ghost use Rattle.fare_desk.specs.Replies.{form_of};
ghost use Rattle.fare_counter.specs.Counter.{IsCounterAnswer, IsOwnReply, IsReplyAt};

use crate::audit_replies::audit_reply;
use crate::best_replies::best_reply;
use crate::reasoner::Reasoner;
use crate::routes::{CounterRoute, CounterRoutes};
use crate::tariff_replies::{check_reply, diff_reply};
use crate::why_replies::why_reply;
use fare_desk::{DeskFront, RequestParts, form_of, is_method, method_reply};
use fare_http::{Front, Reply};
use fare_ports::NoMemory;
use http::Method;
use std::alloc::Global;
use std::thread::Threads;

/// What a counter answers that changes nothing, so that several threads may ask it side by side: its own routes, and
/// what the front of its desk answers.
#[derive(Clone, Copy)]
pub struct CounterFront<'c, Q> {
    /// The front of the desk.
    pub desk: DeskFront<'c, Q>,
    /// The counter's own routes.
    pub routes: &'c CounterRoutes,
}

impl<Q: Reasoner> CounterFront<'_, Q> {
    /// The reply to a request whose path takes a route of the counter.
    pub(crate) fn own_reply<R: Threads + Sync>(
        &self,
        rt: &R,
        alloc: Global,
        route: CounterRoute,
        request: &RequestParts<'_>,
    ) -> Result<Reply, NoMemory>
        ensures { IfOk result (IsOwnReply self.now.desk.book.now.editions route
            request.now.method.now request.now.path.now request.now.body.now) }
    {
        if is_method(request.method, route.method()) {
            return self.reply_at(rt, alloc, route, request);
        }
        method_reply(alloc, form_of(request.path), route.method())
    }

    /// The reply of a route that is asked by its method.
    fn reply_at<R: Threads + Sync>(
        &self,
        rt: &R,
        alloc: Global,
        route: CounterRoute,
        request: &RequestParts<'_>,
    ) -> Result<Reply, NoMemory>
        ensures { IfOk result (IsReplyAt (form_of request.now.path.now) self.now.desk.book.now.editions route
            request.now.path.now request.now.body.now) }
    {
        let form = form_of(request.path);
        let book = self.desk.book;
        match route {
            CounterRoute::Best => best_reply(alloc, form, book, request.path, request.body),
            CounterRoute::Audit => audit_reply(rt, alloc, &self.desk.clerk(form), request.body),
            CounterRoute::Why => why_reply(rt, alloc, &self.desk.clerk(form), request.body),
            CounterRoute::Check => check_reply(rt, alloc, request.body),
            CounterRoute::Diff => diff_reply(alloc, book, request.path),
        }
    }
}

impl<Q: Reasoner + Sync> Front for CounterFront<'_, Q> {
    ghost reply = { λ front method path body reply.
        IsCounterAnswer front.desk.book.now.editions method path body reply };

    fn view<R: Threads + Sync>(
        &self,
        rt: &R,
        alloc: Global,
        method: &Method,
        path: &str,
        body: &[u8],
    ) -> Result<Reply, NoMemory> {
        match self.routes.find(path) {
            None => self.desk.view(rt, alloc, method, path, body),
            Some(route) => {
                let request = RequestParts { method, path, body };
                self.own_reply(rt, alloc, route, &request)
            }
        }
    }
}
