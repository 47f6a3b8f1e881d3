ghost use Rattle.std.specs.Prelude.{IfOk, List, Option, ℕ};
ghost use Rattle.std.specs.Result.{result_ok};
ghost use Rattle.std.specs.Thread.{IsSync};

use crate::Reply;
use fare_ports::NoMemory;
use http::Method;
use std::alloc::Global;
use std::thread::Threads;

/// What answers requests one after the other, and may change with each.
pub trait Handler {
    ghost use Rattle.fare_http.specs.declared.reply.Reply.{Reply};

    /// One request: the handler before, the method, the path and the body, the reply, none being want of memory, and
    /// the handler after.
    ghost step: { Self → List ℕ → List ℕ → List ℕ → Option Reply → Self → Type 0 };

    /// Answers one request. Its one refusal is want of memory.
    fn answer<R: Threads + Sync>(
        &mut self,
        rt: &R,
        alloc: Global,
        method: &Method,
        path: &str,
        body: &[u8],
    ) -> Result<Reply, NoMemory>
        requires { IsSync R.row }
        ensures { step self.old method.now path.now body.now (result_ok result) self.new };
}

/// What answers requests and never changes, so that several may be answered side by side.
pub trait Front: Sync {
    ghost use Rattle.fare_http.specs.declared.reply.Reply.{Reply};

    /// Which reply a request of a method, a path and a body has.
    ghost reply: { Self → List ℕ → List ℕ → List ℕ → Reply → Type 0 };

    /// Answers one request. Its one refusal is want of memory.
    fn view<R: Threads + Sync>(
        &self,
        rt: &R,
        alloc: Global,
        method: &Method,
        path: &str,
        body: &[u8],
    ) -> Result<Reply, NoMemory>
        requires { IsSync R.row }
        ensures { IfOk result (reply self.now method.now path.now body.now) };
}
