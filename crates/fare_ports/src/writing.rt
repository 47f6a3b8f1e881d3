ghost use Rattle.std.specs.Prelude.{◌≤◌, OnOk, OnErr};
ghost use Rattle.std.specs.Io.KnownBytes.{Appends};
ghost use Rattle.fare_ports.specs.Cause.{Rose};
ghost use Rattle.fare_ports.specs.Sink.{AppendsPrefix};

use crate::failed::Failed;
use crate::sink::Sink;

/// Writes all of these bytes. After `Failed` a prefix of them was written, and not all.
pub fn write_all<K: Sink>(out: &mut K, bytes: &[u8]) -> Result<(), Failed>
    ensures whole { OnOk result (Appends (K.taken out.old) (K.taken out.new) bytes.now) }
    ensures prefix { OnErr result (AppendsPrefix (K.taken out.old) (K.taken out.new) bytes.now) }
    ensures never_falls { K.faults out.old ≤ K.faults out.new }
    ensures cause { OnErr result (Rose (K.faults out.old) (K.faults out.new)) }
{
    let mut at = 0;
    'pieces: while at < bytes.len() {
        at += out.write(&bytes[at..])?;
    }
    Ok(())
}
