//! The counter over a desk.

ghost use Rattle.std.specs.Prelude.{◌≡◌};

use crate::counter_front::CounterFront;
use crate::reasoner::Reasoner;
use crate::routes::CounterRoutes;
use fare_desk::{Desk, RequestParts};
use fare_http::{Handler, Reply};
use fare_ports::{Keeper, NoMemory};
use fare_units::Quoter;
use http::Method;
use std::alloc::Global;
use std::thread::Threads;

/// A counter: it answers its own routes over the book of its desk, and hands every other request to the desk.
#[derive(Drop)]
pub struct Counter<'k, P: Keeper, Q: Quoter> {
    /// The desk.
    pub desk: Desk<'k, P, Q>,
    /// The counter's own routes.
    pub routes: CounterRoutes,
}

impl<'k, P: Keeper, Q: Quoter + Drop> Counter<'k, P, Q> {
    ghost use Rattle.std.specs.Prelude.{IfOk};

    /// A counter over a desk. A caller that has to know what the keeper is after a refusal makes the routes first, and
    /// then a counter by `over`.
    pub fn new(alloc: Global, desk: Desk<'k, P, Q>) -> Result<Counter<'k, P, Q>, NoMemory>
        ensures { IfOk result (λ counter. counter.desk ≡ desk.entry) }
    {
        let routes = CounterRoutes::new(alloc)?;
        Ok(Counter::over(routes, desk))
    }

    /// The same with routes that were made before. It takes no memory.
    pub fn over(routes: CounterRoutes, desk: Desk<'k, P, Q>) -> Counter<'k, P, Q>
        ensures { result.desk ≡ desk.entry }
    {
        Counter { desk, routes }
    }

    /// The desk, handed back as the counter leaves it.
    pub fn into_desk(self) -> Desk<'k, P, Q>
        ensures { result ≡ self.entry.desk }
    {
        let Counter {
            desk,
            routes: _routes,
        } = self;
        desk
    }

    /// What it answers that changes nothing.
    pub fn front(&self) -> CounterFront<'_, Q>
        ensures { result.desk.book.now ≡ self.now.desk.book }
    {
        CounterFront {
            desk: self.desk.front(),
            routes: &self.routes,
        }
    }
}

impl<'k, P: Keeper, Q: Reasoner + Drop> Handler for Counter<'k, P, Q> {
    ghost use Rattle.std.specs.Prelude.{◌≡◌};
    ghost use Rattle.fare_desk.specs.Publishing.{state};
    ghost use Rattle.fare_counter.specs.Counter.{IsCounterStep};

    ghost step = { λ old method path body reply new.
        (new.desk.keeper.ghost_name ≡ old.desk.keeper.ghost_name)
        × (P.opened_as new.desk.keeper.now ≡ P.opened_as old.desk.keeper.now)
        × IsCounterStep
        (state old.desk.book (P.bodies old.desk.keeper.now) (P.faults old.desk.keeper.now))
        (state new.desk.book (P.bodies new.desk.keeper.now) (P.faults new.desk.keeper.now))
        method path body reply };

    fn answer<R: Threads + Sync>(
        &mut self,
        rt: &R,
        alloc: Global,
        method: &Method,
        path: &str,
        body: &[u8],
    ) -> Result<Reply, NoMemory> {
        match self.routes.find(path) {
            None => self.desk.answer(rt, alloc, method, path, body),
            Some(route) => {
                let request = RequestParts { method, path, body };
                self.front().own_reply(rt, alloc, route, &request)
            }
        }
    }
}
