ghost use Rattle.std.specs.Prelude.{ℕ, ◌<◌, ◌≤◌, List, Option, length, IfOk, OnErr};
ghost use Rattle.std.specs.Io.{WritesAtMost};
ghost use Rattle.std.specs.Io.KnownBytes.{WriteAppends};
ghost use Rattle.fare_ports.specs.Cause.{Rose};

use crate::failed::Failed;

/// What is written to, a piece at a time.
pub trait Sink {
    /// The bytes taken so far, where they are told.
    ghost taken: { Self → Option (List ℕ) };

    /// How many writes have failed.
    ghost faults: { Self → ℕ };

    /// Takes the first bytes of `buf` and answers how many: at least one, unless `buf` is empty.
    /// `Failed` takes none.
    fn write(&mut self, buf: &[u8]) -> Result<usize, Failed>
        ensures within { WritesAtMost result buf.now }
        ensures progress { IfOk result (λ count. 0 < length buf.now → 0 < count) }
        ensures bytes { WriteAppends (taken self.old) (taken self.new) result buf.now }
        ensures never_falls { faults self.old ≤ faults self.new }
        ensures cause { OnErr result (Rose (faults self.old) (faults self.new)) };
}
