//! The desk that `serve` lets connections ask, behind its counter.

ghost use Rattle.std.specs.Prelude.{◌≡◌, IsTrue};

use crate::ServedFront;
use fare_book::Book;
use fare_counter::{Counter, CounterRoutes};
use fare_desk::{Desk, Routes};
use fare_http::{Handler, Reply};
use fare_ports::{Keeper, NoMemory};
use fare_rounds::{Round, RoundHandler};
use fare_split::{SplitQuoter, Turnstile};
use http::Method;
use std::alloc::Global;
use std::thread::Threads;

/// The desk of the program behind its counter, with its quoter. What changes nothing it answers side by side.
#[derive(Drop)]
pub struct ServedDesk<'k, P: Keeper> {
    /// What answers.
    pub counter: Counter<'k, P, SplitQuoter<'k, Turnstile>>,
}

impl<'k, P: Keeper> ServedDesk<'k, P> {
    /// A desk over a book and a keeper that is ready, whose searches are shared out among the workers of a quoter, with
    /// the counter's own routes and the desk's, which were made before. It takes no memory.
    pub fn over(
        own: CounterRoutes,
        routes: Routes,
        book: Book,
        keeper: &'k mut P,
        quoter: SplitQuoter<'k, Turnstile>,
    ) -> ServedDesk<'k, P>
        requires { IsTrue (P.ready keeper.old) }
        ensures book { result.counter.desk.book ≡ book }
        ensures keeper { result.counter.desk.keeper.now ≡ keeper.old }
        ensures same_reference { result.counter.desk.keeper.ghost_name ≡ keeper.entry.ghost_name }
    {
        ServedDesk {
            counter: Counter::over(own, Desk::over(routes, book, keeper, quoter)),
        }
    }

    /// What it answers that changes nothing.
    pub fn front(&self) -> ServedFront<'_, 'k>
        ensures { result.counter.desk.book.now ≡ self.now.counter.desk.book }
    {
        ServedFront {
            counter: self.counter.front(),
        }
    }

    /// The keeper, handed back: the one that was lent, as the desk leaves it.
    pub fn into_keeper(self) -> &'k mut P
        ensures value { result.now ≡ self.entry.counter.desk.keeper.now }
        ensures same_reference { result.ghost_name ≡ self.entry.counter.desk.keeper.ghost_name }
    {
        let ServedDesk { counter } = self;
        counter.into_desk().into_keeper()
    }
}

impl<'k, P: Keeper> Handler for ServedDesk<'k, P> {
    ghost step = { λ old method path body reply new.
        ⟦<Counter<'k, P, SplitQuoter<'k, Turnstile>> as Handler>⟧.step old.counter method path body reply new.counter };

    fn answer<R: Threads + Sync>(
        &mut self,
        rt: &R,
        alloc: Global,
        method: &Method,
        path: &str,
        body: &[u8],
    ) -> Result<Reply, NoMemory> {
        self.counter.answer(rt, alloc, method, path, body)
    }
}

impl<'k, P: Keeper> RoundHandler for ServedDesk<'k, P> {
    ghost use Rattle.std.specs.Prelude.{refl};
    ghost use Rattle.fare_counter.proofs.StepLemmas.{viewed};
    ghost use Rattle.fare_counter.specs.Counter.{IsCounterAnswer};
    ghost use Rattle.fare_desk.specs.Publishing.{state};

    ghost reply = { λ served method path body reply.
        IsCounterAnswer served.counter.desk.book.editions method path body reply };

    fn view<R: Threads + Sync>(&self, rt: &R, alloc: Global, round: &mut Round) {
        round.view_all(rt, alloc, &self.front());
    }

    ghost shows = { λ served method path body reply other answered.
        let desk = served.counter.desk in
        let now = state desk.book (P.bodies desk.keeper.now) (P.faults desk.keeper.now) in
        (refl, refl, viewed now method path body reply other answered) };
}
