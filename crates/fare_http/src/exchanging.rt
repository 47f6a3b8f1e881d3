ghost use Rattle.std.specs.Prelude.{◌≡◌, ◌≤◌, None};
ghost use Rattle.fare_ports.specs.Cause.{Rose};
ghost use Rattle.fare_http.specs.Serving.{ExchangesAt};

use crate::{Exchange, Handler, Taken, read_request, send};
use fare_ports::Door;
use std::alloc::Global;
use std::thread::Threads;

/// Reads a request from the current connection, lets the handler answer it, sends the answer and closes the connection.
///
/// Bytes that have a fixed answer don't reach the handler. `Cut` comes only where the connection ended before its
/// request was whole, or a read or a write failed. Once the handler has answered no memory is taken.
pub fn exchange<R: Threads + Sync, D: Door, H: Handler>(
    rt: &R,
    alloc: Global,
    door: &mut D,
    handler: &mut H,
) -> Exchange
    ensures exchanges { ExchangesAt H.step result (D.left door.old) handler.old
        (D.current door.old) (D.sent door.old) (D.sent door.new) handler.new
        (Rose (D.cuts door.old) (D.cuts door.new)) }
    ensures closed { D.current door.new ≡ None }
    ensures waiting { D.waiting door.new ≡ D.waiting door.old }
    ensures held { D.held door.new ≡ D.held door.old }
    ensures port { D.listens_at door.new ≡ D.listens_at door.old }
    ensures faults { D.faults door.new ≡ D.faults door.old }
    ensures never_falls { D.cuts door.old ≤ D.cuts door.new }
{
    match read_request(alloc, door) {
        Taken::Whole(request) => {
            let path = request.path.as_str();
            let body = request.body.as_slice();
            let reply = handler.answer(rt, alloc, &request.method, path, body).ok();
            send(door, reply.as_ref())
        }
        Taken::Fixed(reply) => send(door, Some(&reply)),
        Taken::NoMemory => send(door, None),
        Taken::Cut => {
            door.close();
            Exchange::Cut
        }
    }
}
