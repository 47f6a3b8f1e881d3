//! What finds the reasons why a trip isn't cheaper.

ghost use Rattle.std.specs.Prelude.{◌<◌};
ghost use Rattle.std.specs.Thread.{IsSync};
ghost use Rattle.fare_answers.specs.Answers.{Answers};
ghost use Rattle.fare_counter.specs.WhyReply.{WhyIn};

use fare_answers::QuoteFault;
use fare_desk::Clerk;
use fare_http::Form;
use fare_split::{SplitQuoter, Turnstile};
use fare_trip::Trip;
use fare_units::{PlainQuoter, Quoter};
use fare_why::{Searches, why_text};
use fare_why_json::why_json;
use std::alloc::Global;
use std::thread::Threads;

/// A quoter that finds the reasons of a trip as well: what would make it cheaper.
pub trait Reasoner: Quoter + Sized {
    /// The reasons of a trip over the book of a clerk, in its form: their text as `fare_why::why_text` answers it, or
    /// the JSON answer, or why there is none.
    fn reasons<R: Threads + Sync>(
        rt: &R,
        alloc: Global,
        clerk: &Clerk<'_, Self>,
        trip: &Trip,
    ) -> Result<Vec<u8>, QuoteFault>
        requires { IsSync R.row }
        ensures { Answers (WhyIn clerk.now.form clerk.now.book.now.editions trip.now) result };
}

/// It finds them one after the other.
impl Reasoner for PlainQuoter {
    fn reasons<R: Threads + Sync>(
        rt: &R,
        alloc: Global,
        clerk: &Clerk<'_, PlainQuoter>,
        trip: &Trip,
    ) -> Result<Vec<u8>, QuoteFault> {
        why_in(rt, alloc, clerk, 1, trip)
    }
}

/// Its workers share the search for the best, and then have one search each.
impl<'g> Reasoner for SplitQuoter<'g, Turnstile> {
    fn reasons<R: Threads + Sync>(
        rt: &R,
        alloc: Global,
        clerk: &Clerk<'_, SplitQuoter<'g, Turnstile>>,
        trip: &Trip,
    ) -> Result<Vec<u8>, QuoteFault> {
        let threads = clerk.quoter.workers as usize;
        why_in(rt, alloc, clerk, threads, trip)
    }
}

/// The reasons of a trip as they are searched for, by so many threads: their text or the JSON answer, or why there are
/// none.
fn why_in<R: Threads + Sync, Q: Quoter>(
    rt: &R,
    alloc: Global,
    clerk: &Clerk<'_, Q>,
    threads: usize,
    trip: &Trip,
) -> Result<Vec<u8>, QuoteFault>
    requires some { 0 < threads }
    ensures { Answers (WhyIn clerk.now.form clerk.now.book.now.editions trip.now) result }
{
    let searches = Searches {
        quoter: clerk.quoter,
        threads,
    };
    match clerk.form {
        Form::Text => why_text(rt, alloc, clerk.book, &searches, trip),
        Form::Json => why_json(rt, alloc, clerk.book, &searches, trip),
    }
}
