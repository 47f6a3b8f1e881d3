//! The desk that answers requests over a book and its keeper.

ghost use Rattle.std.specs.Prelude.{◌≡◌, IsTrue};

use crate::front::DeskFront;
use crate::publishing::{MOST_WORDS, publication_reply};
use crate::replies::is_method;
use crate::request_parts::RequestParts;
use crate::routes::{Route, Routes};
use fare_book::Book;
use fare_http::{Handler, Reply};
use fare_json::OneMethod;
use fare_ports::{Keeper, NoMemory};
use fare_units::Quoter;
use http::Method;
use std::alloc::Global;
use std::thread::Threads;

/// A desk: it quotes over its book, and publishes in it and in the keeper of its bodies, which is ready.
#[derive(Drop)]
pub struct Desk<'k, P: Keeper, Q: Quoter> {
    /// The published editions.
    pub book: Book,
    /// What keeps their bodies.
    pub keeper: &'k mut P,
    /// What finds the best constructions.
    pub quoter: Q,
    /// The routes of requests.
    pub routes: Routes,
    ghost ready: { IsTrue (P.ready keeper.now) },
}

impl<'k, P: Keeper, Q: Quoter + Drop> Desk<'k, P, Q> {
    ghost use Rattle.std.specs.Prelude.{IfOk};
    ghost use Rattle.std.specs.Result.{result_ok};
    ghost use Rattle.fare_desk.specs.Publishing.{IsPublication, state};

    /// A desk over a book and a keeper that is ready. A caller that has to know what the keeper is after a refusal
    /// makes the routes first, and then a desk by `over`.
    pub fn new<R: Threads + Sync>(
        _rt: &R,
        alloc: Global,
        book: Book,
        keeper: &'k mut P,
        quoter: Q,
    ) -> Result<Desk<'k, P, Q>, NoMemory>
        requires { IsTrue (P.ready keeper.old) }
        ensures book { IfOk result (λ desk. desk.book ≡ book) }
        ensures keeper { IfOk result (λ desk. desk.keeper.now ≡ keeper.old) }
        ensures same_reference { IfOk result (λ desk. desk.keeper.ghost_name ≡ keeper.entry.ghost_name) }
    {
        let routes = Routes::new(alloc)?;
        Ok(Desk::over(routes, book, keeper, quoter))
    }

    /// The same with routes that were made before. It takes no memory.
    pub fn over(routes: Routes, book: Book, keeper: &'k mut P, quoter: Q) -> Desk<'k, P, Q>
        requires { IsTrue (P.ready keeper.old) }
        ensures book { result.book ≡ book }
        ensures keeper { result.keeper.now ≡ keeper.old }
        ensures same_reference { result.keeper.ghost_name ≡ keeper.entry.ghost_name }
    {
        Desk {
            book,
            keeper,
            quoter,
            routes,
        }
    }

    /// The keeper, handed back: the one that was lent, as the desk leaves it.
    pub fn into_keeper(self) -> &'k mut P
        ensures value { result.now ≡ self.entry.keeper.now }
        ensures same_reference { result.ghost_name ≡ self.entry.keeper.ghost_name }
    {
        let Desk {
            book: _book,
            keeper,
            quoter: _quoter,
            routes: _routes,
        } = self;
        keeper
    }

    /// Its book.
    pub fn book(&self) -> &Book
        ensures { result.now ≡ self.now.book }
    {
        &self.book
    }

    /// What finds its best constructions.
    pub fn quoter(&self) -> &Q
        ensures { result.now ≡ self.now.quoter }
    {
        &self.quoter
    }

    /// What it answers that changes nothing.
    pub fn front(&self) -> DeskFront<'_, Q>
        ensures { result.book.now ≡ self.now.book }
    {
        DeskFront {
            book: &self.book,
            quoter: &self.quoter,
            routes: &self.routes,
        }
    }

    /// Publishes a text. The room of the reply is taken before.
    fn publish<R: Threads + Sync>(
        &mut self,
        rt: &R,
        alloc: Global,
        text: &[u8],
    ) -> Result<Reply, NoMemory>
        ensures same_reference { self.new.keeper.ghost_name ≡ self.old.keeper.ghost_name }
        ensures name { P.opened_as self.new.keeper.now ≡ P.opened_as self.old.keeper.now }
        ensures publication { IsPublication
            (state self.old.book (P.bodies self.old.keeper.now) (P.faults self.old.keeper.now))
            (state self.new.book (P.bodies self.new.keeper.now) (P.faults self.new.keeper.now))
            text.now (result_ok result) }
    {
        let Ok(room) = Vec::with_capacity(alloc, MOST_WORDS) else {
            return Err(NoMemory);
        };
        let answer = self.book.publish(rt, alloc, self.keeper, text);
        publication_reply(room, answer)
    }
}

impl<'k, P: Keeper, Q: Quoter + Drop> Handler for Desk<'k, P, Q> {
    ghost use Rattle.std.specs.Prelude.{◌≡◌};
    ghost use Rattle.fare_desk.specs.Publishing.{IsDeskStep, state};

    ghost step = { λ old method path body reply new.
        (new.keeper.ghost_name ≡ old.keeper.ghost_name)
        × (P.opened_as new.keeper.now ≡ P.opened_as old.keeper.now)
        × IsDeskStep
        (state old.book (P.bodies old.keeper.now) (P.faults old.keeper.now))
        (state new.book (P.bodies new.keeper.now) (P.faults new.keeper.now))
        method path body reply };

    fn answer<R: Threads + Sync>(
        &mut self,
        rt: &R,
        alloc: Global,
        method: &Method,
        path: &str,
        body: &[u8],
    ) -> Result<Reply, NoMemory> {
        let route = self.routes.find(path);
        if route == Some(Route::Editions) && is_method(method, OneMethod::Post) {
            return self.publish(rt, alloc, body);
        }
        let request = RequestParts { method, path, body };
        self.front().reply(rt, alloc, route, &request)
    }
}
