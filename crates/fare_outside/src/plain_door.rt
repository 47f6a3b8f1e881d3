ghost use Rattle.std.specs.Prelude.{◌≡◌, [], Some, None, false};

use fare_ports::{Door, Failed};

/// A door to which no connection comes.
#[derive(Drop)]
pub struct PlainDoor {
    port: Option<u16>,
}

impl PlainDoor {
    /// A door with no connection to come, which doesn't listen yet.
    pub fn new() -> PlainDoor
        ensures { result.port ≡ None }
    {
        PlainDoor { port: None }
    }
}

impl Door for PlainDoor {
    ghost waiting = { λ _. Some [] };

    ghost left = { λ _. Some [] };

    ghost sent = { λ _. None };

    ghost held = { λ _. [] };

    ghost current = { λ _. None };

    ghost listens_at = { λ door. door.port };

    ghost faults = { λ _. 0 };

    ghost cuts = { λ _. 0 };

    fn listen(&mut self, port: u16) -> Result<(), Failed> {
        self.port = Some(port);
        Ok(())
    }

    fn next(&mut self) -> Result<bool, Failed> {
        Ok(false)
    }

    fn read(&mut self, _buf: &mut [u8]) -> Result<usize, Failed> {
        Ok(0)
    }

    fn write(&mut self, buf: &[u8]) -> Result<usize, Failed> {
        Ok(buf.len())
    }

    fn close(&mut self) {}

    fn more(&mut self) -> bool {
        false
    }

    /// No connection is ever current, so there is none to put aside.
    fn hold(&mut self) -> bool
        ensures { result ≡ false }
    {
        false
    }

    fn resume(&mut self) -> bool {
        false
    }
}
