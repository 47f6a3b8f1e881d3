//! The front of a desk: what is answered without a change.

ghost use Rattle.std.specs.Prelude.{◌≡◌, IfOk};
ghost use Rattle.fare_desk.specs.Replies.{form_of};
ghost use Rattle.fare_desk.specs.Viewing.{IsAnswer, IsReplyAt, IsRouteReply};

use crate::batch::batch_reply;
use crate::clerk::Clerk;
use crate::editions::{edition_reply, list_reply};
use crate::one_by_one::OneByOne;
use crate::replies::{form_of, is_method, method_reply, no_route_reply};
use crate::request_parts::RequestParts;
use crate::routes::{Route, Routes};
use fare_book::Book;
use fare_http::{Form, Front, Reply};
use fare_ports::NoMemory;
use fare_units::Quoter;
use http::Method;
use std::alloc::Global;
use std::thread::Threads;

/// What a desk answers that changes nothing, so that several threads may ask it side by side. It publishes nothing: to
/// it `/editions` is only read.
#[derive(Clone, Copy)]
pub struct DeskFront<'d, Q> {
    /// The book in which it answers.
    pub book: &'d Book,
    /// What finds the best constructions.
    pub quoter: &'d Q,
    /// The routes of requests.
    pub routes: &'d Routes,
}

impl<Q: Quoter> DeskFront<'_, Q> {
    /// What answers itineraries in this form.
    pub fn clerk(&self, form: Form) -> Clerk<'_, Q>
        ensures book { result.book.now ≡ self.now.book.now }
        ensures form { result.form ≡ form }
    {
        let (book, quoter) = (self.book, self.quoter);
        Clerk { book, quoter, form }
    }

    /// The reply to a request whose path takes a route, or none.
    pub(crate) fn reply<R: Threads + Sync>(
        &self,
        rt: &R,
        alloc: Global,
        route: Option<Route>,
        request: &RequestParts<'_>,
    ) -> Result<Reply, NoMemory>
        ensures { IfOk result (IsRouteReply (form_of request.now.path.now) self.now.book.now.editions route
            request.now.method.now request.now.path.now request.now.body.now) }
    {
        let form = form_of(request.path);
        match route {
            None => no_route_reply(alloc, form),
            Some(route) if is_method(request.method, route.method()) => {
                self.reply_at(rt, alloc, route, request)
            }
            Some(route) => method_reply(alloc, form, route.method()),
        }
    }

    /// The reply of a route that is asked by its method.
    fn reply_at<R: Threads + Sync>(
        &self,
        rt: &R,
        alloc: Global,
        route: Route,
        request: &RequestParts<'_>,
    ) -> Result<Reply, NoMemory>
        ensures { IfOk result (IsReplyAt (form_of request.now.path.now) self.now.book.now.editions route
            request.now.path.now request.now.body.now) }
    {
        let form = form_of(request.path);
        match route {
            Route::Editions | Route::Listing => list_reply(alloc, form, self.book),
            Route::Edition => edition_reply(alloc, self.book, request.path),
            Route::Quote => self.clerk(form).quote_reply(rt, alloc, request.body),
            Route::Batch => {
                let (book, quoter) = (self.book, self.quoter);
                batch_reply(rt, alloc, form, &OneByOne { book, quoter }, request.body)
            }
        }
    }
}

impl<Q: Quoter + Sync> Front for DeskFront<'_, Q> {
    ghost reply = { λ front method path body reply. IsAnswer front.book.now.editions method path body reply };

    fn view<R: Threads + Sync>(
        &self,
        rt: &R,
        alloc: Global,
        method: &Method,
        path: &str,
        body: &[u8],
    ) -> Result<Reply, NoMemory> {
        let request = RequestParts { method, path, body };
        self.reply(rt, alloc, self.routes.find(path), &request)
    }
}
