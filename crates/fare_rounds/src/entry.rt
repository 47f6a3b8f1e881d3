ghost use Rattle.std.specs.Prelude.{◌≡◌};
ghost use Rattle.fare_rounds.specs.Entries.{entry_of, is_publication, IsViewed};
ghost use Rattle.fare_rounds.specs.Finishing.{IsReplied};

use fare_http::{Front, Handler, Reply, Request, Taken};
use std::alloc::Global;
use std::thread::Threads;

/// What a connection of a round brought, and its reply.
#[derive(Drop, Default)]
pub struct Entry {
    /// The whole request, if it brought one.
    pub request: Option<Request>,
    /// The reply, if there is one: the fixed answer to what is no whole request, or what the request is answered.
    pub reply: Option<Reply>,
}

impl Entry {
    /// The entry of what was read from a connection, unless it was cut off.
    pub(crate) fn of(taken: Taken) -> Option<Entry>
        ensures { result ≡ entry_of taken }
    {
        match taken {
            Taken::Whole(request) => Some(Entry {
                request: Some(request),
                reply: None,
            }),
            Taken::Fixed(reply) => Some(Entry {
                request: None,
                reply: Some(reply),
            }),
            Taken::NoMemory => Some(Entry::default()),
            Taken::Cut => None,
        }
    }

    /// Answers the whole request, unless it is a `POST /editions`.
    pub(crate) fn view<R: Threads + Sync, F: Front>(&mut self, rt: &R, alloc: Global, front: &F)
        ensures { IsViewed (F.reply front.now) self.old self.new }
    {
        let Some(request) = &self.request else {
            return;
        };
        if is_publication(request) {
            return;
        }
        let path = request.path.as_str();
        let body = request.body.as_slice();
        self.reply = front.view(rt, alloc, &request.method, path, body).ok();
    }

    /// Lets the handler answer a `POST /editions`.
    pub(crate) fn publish<R: Threads + Sync, H: Handler>(
        &mut self,
        rt: &R,
        alloc: Global,
        handler: &mut H,
    )
        ensures reply { IsReplied H.step self.old.request self.old.reply handler.old self.new.reply handler.new }
    {
        let Some(request) = &self.request else {
            return;
        };
        if !is_publication(request) {
            return;
        }
        let path = request.path.as_str();
        let body = request.body.as_slice();
        self.reply = handler.answer(rt, alloc, &request.method, path, body).ok();
    }
}

/// Whether a request is a `POST /editions`.
fn is_publication(request: &Request) -> bool
    ensures { result ≡ is_publication request.now.method request.now.path }
{
    request.method.as_str() == "POST" && request.path.as_str() == "/editions"
}
