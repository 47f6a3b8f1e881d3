ghost use Rattle.std.specs.Prelude.{◌≡◌, ◌≤◌, None, option_copied, OnOk, OnErr};
ghost use Rattle.fare_ports.specs.Cause.{Rose};
ghost use Rattle.fare_http.specs.Answers.{answer_bytes, reply_bytes, status_line};
ghost use Rattle.fare_http.specs.Sending.{sent_more, Sends, SendsPrefix, SentPrefix};

use crate::send_all::send_all;
use crate::{Reply, Status};
use fare_ports::{Door, Failed};
use itoa::Buffer;

/// How an exchange ended.
#[derive(Clone, Copy, Debug, PartialEq, Eq)]
pub enum Exchange {
    /// The whole answer was sent.
    Served,
    /// The connection ended too early, or a read or a write failed, and the door's count of cuts
    /// rose.
    Cut,
}

/// The answer where memory was wanting.
const NO_MEMORY: &[u8] =
    b"HTTP/1.1 507 Insufficient Storage\r\nContent-Type: text/plain\r\nContent-Length: 10\r\n\
Connection: close\r\n\r\nNO MEMORY\n";

/// Answers on the current connection with this reply, or with the one for want of memory, and
/// closes it. It takes no memory.
///
/// `Cut` comes only where a write failed; then a prefix of the answer was sent, and not all of it.
pub fn send<D: Door>(door: &mut D, reply: Option<&Reply>) -> Exchange
    ensures served { result ≡ Exchange.Served → D.sent door.new ≡
        sent_more (D.current door.old) (D.sent door.old) (answer_bytes (option_copied reply.entry)) }
    ensures cut { result ≡ Exchange.Cut → SentPrefix (D.current door.old)
        (D.sent door.old) (D.sent door.new) (answer_bytes (option_copied reply.entry)) }
    ensures cause { result ≡ Exchange.Cut → Rose (D.cuts door.old) (D.cuts door.new) }
    ensures closed { D.current door.new ≡ None }
    ensures waiting { D.waiting door.new ≡ D.waiting door.old }
    ensures held { D.held door.new ≡ D.held door.old }
    ensures port { D.listens_at door.new ≡ D.listens_at door.old }
    ensures faults { D.faults door.new ≡ D.faults door.old }
    ensures never_falls { D.cuts door.old ≤ D.cuts door.new }
{
    let sent = send_answer(door, reply);
    door.close();
    match sent {
        Ok(()) => Exchange::Served,
        Err(Failed) => Exchange::Cut,
    }
}

fn send_answer<D: Door>(door: &mut D, reply: Option<&Reply>) -> Result<(), Failed>
    ensures whole { OnOk result (Sends (D.current door.old) (D.current door.new)
        (D.sent door.old) (D.sent door.new) (answer_bytes (option_copied reply.entry))) }
    ensures prefix { OnErr result (SendsPrefix (D.current door.old) (D.current door.new)
        (D.sent door.old) (D.sent door.new) (answer_bytes (option_copied reply.entry))) }
    ensures waiting { D.waiting door.new ≡ D.waiting door.old }
    ensures held { D.held door.new ≡ D.held door.old }
    ensures port { D.listens_at door.new ≡ D.listens_at door.old }
    ensures faults { D.faults door.new ≡ D.faults door.old }
    ensures never_falls { D.cuts door.old ≤ D.cuts door.new }
    ensures cause { OnErr result (Rose (D.cuts door.old) (D.cuts door.new)) }
{
    match reply {
        Some(reply) => send_reply(door, reply),
        None => send_all(door, NO_MEMORY),
    }
}

fn send_reply<D: Door>(door: &mut D, reply: &Reply) -> Result<(), Failed>
    ensures whole { OnOk result (Sends (D.current door.old) (D.current door.new)
        (D.sent door.old) (D.sent door.new) (reply_bytes reply.now)) }
    ensures prefix { OnErr result (SendsPrefix (D.current door.old) (D.current door.new)
        (D.sent door.old) (D.sent door.new) (reply_bytes reply.now)) }
    ensures waiting { D.waiting door.new ≡ D.waiting door.old }
    ensures held { D.held door.new ≡ D.held door.old }
    ensures port { D.listens_at door.new ≡ D.listens_at door.old }
    ensures faults { D.faults door.new ≡ D.faults door.old }
    ensures never_falls { D.cuts door.old ≤ D.cuts door.new }
    ensures cause { OnErr result (Rose (D.cuts door.old) (D.cuts door.new)) }
{
    let body = reply.body.as_slice();
    let mut digits = Buffer::new();
    send_status(door, reply.status)?;
    send_all(door, reply.form.line())?;
    send_all(door, b"Content-Length: ")?;
    send_all(door, digits.format(body.len()).as_bytes())?;
    send_all(door, b"\r\n")?;
    send_all(door, reply.allow.line())?;
    send_all(door, b"Connection: close\r\n\r\n")?;
    send_all(door, body)
}

/// Sends the line of a status.
fn send_status<D: Door>(door: &mut D, status: Status) -> Result<(), Failed>
    ensures whole { OnOk result (Sends (D.current door.old) (D.current door.new)
        (D.sent door.old) (D.sent door.new) (status_line status)) }
    ensures prefix { OnErr result (SendsPrefix (D.current door.old) (D.current door.new)
        (D.sent door.old) (D.sent door.new) (status_line status)) }
    ensures waiting { D.waiting door.new ≡ D.waiting door.old }
    ensures held { D.held door.new ≡ D.held door.old }
    ensures port { D.listens_at door.new ≡ D.listens_at door.old }
    ensures faults { D.faults door.new ≡ D.faults door.old }
    ensures never_falls { D.cuts door.old ≤ D.cuts door.new }
    ensures cause { OnErr result (Rose (D.cuts door.old) (D.cuts door.new)) }
{
    send_all(door, b"HTTP/1.1 ")?;
    send_all(door, status.text())?;
    send_all(door, b"\r\n")
}
