//! That two requests of a round are answered at once.

ghost use Rattle.std.specs.Prelude.{⊤};

use super::{NO_TEXT, Outcome, door_of, reply, serve};
use fare_http::{Allow, Front, Handler, Reply, Status};
use fare_ports::NoMemory;
use fare_rounds::*;
use http::Method;
use std::alloc::Global;
use std::sync::atomic::{AtomicU64, Ordering};
use std::test::Fail;
use std::thread::Threads;

/// A front that keeps whoever asks for `/1` waiting until somebody has asked for `/2`.
#[derive(Drop)]
struct Meeting {
    second_has_begun: AtomicU64,
}

/// How often the first asks whether the second has begun.
const MOST_TURNS: u64 = 1_000_000_000;

impl Meeting {
    fn waits(&self) -> bool {
        for _ in 0..MOST_TURNS {
            if self.second_has_begun.load(Ordering::SeqCst) == 1 {
                return true;
            }
        }
        false
    }
}

impl Front for Meeting {
    ghost reply = { λ _ _ _ _ _. ⊤ };

    fn view<R: Threads + Sync>(
        &self,
        _rt: &R,
        alloc: Global,
        _method: &Method,
        path: &str,
        _body: &[u8],
    ) -> Result<Reply, NoMemory> {
        if path == "/editions/2" {
            self.second_has_begun.store(1, Ordering::SeqCst);
        } else if !self.waits() {
            return reply(alloc, Status::InternalServerError, Allow::Unsaid, b"");
        }
        reply(alloc, Status::Okay, Allow::Unsaid, b"")
    }
}

impl Handler for Meeting {
    ghost step = { λ _ _ _ _ _ _. ⊤ };

    fn answer<R: Threads + Sync>(
        &mut self,
        _rt: &R,
        alloc: Global,
        _method: &Method,
        _path: &str,
        _body: &[u8],
    ) -> Result<Reply, NoMemory> {
        reply(alloc, Status::NotFound, Allow::Unsaid, b"")
    }
}

impl RoundHandler for Meeting {
    ghost reply = { λ _ _ _ _ _. ⊤ };

    fn view<R: Threads + Sync>(&self, rt: &R, alloc: Global, round: &mut Round) {
        round.view_all(rt, alloc, self)
    }

    ghost shows = { λ _ _ _ _ _ _ _. tt };
}

static BOTH: [&[u8]; 2] = [
    b"GET /editions/1 HTTP/1.1\r\n\r\n",
    b"GET /editions/2 HTTP/1.1\r\n\r\n",
];

static BOTH_ANSWERED: [&[u8]; 2] = [NO_TEXT, NO_TEXT];

fn met<R: AllocGlobal + Threads + Sync>(rt: &R) -> Result<Outcome, Fail> {
    let mut door = door_of(rt.alloc(), &BOTH)?;
    let mut meeting = Meeting {
        second_has_begun: AtomicU64::new(0),
    };
    let (end, counts) = serve(rt, rt.alloc(), &mut door, &mut meeting, 2);
    Ok(Outcome { end, counts, door })
}

#[test]
fn round_two(rt: HostRuntime) -> Result<(), Fail> {
    let round = met(&rt)?;
    assert!(rt; round.counts_are(2, 0));
    assert!(rt; round.sent(&BOTH_ANSWERED));
    Ok(())
}
