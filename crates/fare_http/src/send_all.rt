ghost use Rattle.std.specs.Prelude.{◌≡◌, ◌≤◌, OnOk, OnErr};
ghost use Rattle.fare_ports.specs.Cause.{Rose};
ghost use Rattle.fare_http.specs.Sending.{Sends, SendsPrefix};

use fare_ports::{Door, Failed};

/// Writes all of these bytes to the current connection. After `Failed` a prefix of them was
/// written, and not all.
pub fn send_all<D: Door>(door: &mut D, bytes: &[u8]) -> Result<(), Failed>
    ensures whole { OnOk result (Sends (D.current door.old) (D.current door.new)
        (D.sent door.old) (D.sent door.new) bytes.now) }
    ensures prefix { OnErr result (SendsPrefix (D.current door.old) (D.current door.new)
        (D.sent door.old) (D.sent door.new) bytes.now) }
    ensures waiting { D.waiting door.new ≡ D.waiting door.old }
    ensures left { D.left door.new ≡ D.left door.old }
    ensures held { D.held door.new ≡ D.held door.old }
    ensures port { D.listens_at door.new ≡ D.listens_at door.old }
    ensures faults { D.faults door.new ≡ D.faults door.old }
    ensures never_falls { D.cuts door.old ≤ D.cuts door.new }
    ensures cause { OnErr result (Rose (D.cuts door.old) (D.cuts door.new)) }
{
    let mut at = 0;
    'pieces: while at < bytes.len() {
        at += door.write(&bytes[at..])?;
    }
    Ok(())
}
