ghost use Rattle.std.specs.Prelude.{◌≡◌, ℕ, ◌<◌, ◌≤◌, [], ◌++◌, Bool, List, Option, Some, None, Ok, false, length};
ghost use Rattle.std.specs.Prelude.{take, is_some, if◌then◌else◌, nat_lt, option_map, option_to_list, IfOk, IfSome};
ghost use Rattle.std.specs.Prelude.{IsSome, IsTrue, OnErr, MatchBool, MatchResult};
ghost use Rattle.std.specs.Bool.{OnTrue, OnFalse};
ghost use Rattle.std.specs.Io.{ReadsAtMost, WritesAtMost};
ghost use Rattle.std.specs.Io.KnownBytes.{ReadConsumes};
ghost use Rattle.fare_ports.specs.Cause.{Rose};
ghost use Rattle.fare_ports.specs.Door.{is_taken, TakesFirst, NoneWaits, with_one_more, with_more_at, TakesHeld};

use crate::failed::Failed;

/// The most connections that a door puts aside.
pub const MOST_HELD: usize = 8;

/// Where connections come in, one current at a time, with up to eight put aside.
///
/// A place is that of a connection in `sent`, and means something only where `sent` is told.
pub trait Door {
    /// What the connections to come will bring, in order, where it is told.
    ghost waiting: { Self → Option (List (List ℕ)) };

    /// What the current connection still brings, where it is told.
    ghost left: { Self → Option (List ℕ) };

    /// What was sent on each connection taken, in the order in which they were taken, where it is
    /// told.
    ghost sent: { Self → Option (List (List ℕ)) };

    /// The places of the connections put aside, in order.
    ghost held: { Self → List ℕ };

    /// The place of the current connection, if there is one.
    ghost current: { Self → Option ℕ };

    /// The port at which it listens, once `listen` has answered Ok.
    ghost listens_at: { Self → Option ℕ };

    /// How many calls of `listen` and `next` have failed.
    ghost faults: { Self → ℕ };

    /// How many calls of `read` and `write` have failed.
    ghost cuts: { Self → ℕ };

    /// Begins to let connections in at that port.
    fn listen(&mut self, port: u16) -> Result<(), Failed>
        ensures port { MatchResult result (λ _. listens_at self.new ≡ Some port)
            (λ _. listens_at self.new ≡ listens_at self.old) }
        ensures waiting { waiting self.new ≡ waiting self.old }
        ensures left { left self.new ≡ left self.old }
        ensures sent { sent self.new ≡ sent self.old }
        ensures held { held self.new ≡ held self.old }
        ensures current { current self.new ≡ current self.old }
        ensures cuts { cuts self.new ≡ cuts self.old }
        ensures never_falls { faults self.old ≤ faults self.new }
        ensures cause { OnErr result (Rose (faults self.old) (faults self.new)) };

    /// Takes the next connection, which is then the current one. False says that none will come;
    /// after it, and after `Failed`, none is current.
    fn next(&mut self) -> Result<bool, Failed>
        ensures waiting { MatchBool (is_taken result)
            (TakesFirst (waiting self.old) (waiting self.new) (left self.new))
            (waiting self.new ≡ waiting self.old) }
        ensures none_comes { IfOk result (λ taken. OnFalse taken (NoneWaits (waiting self.old))) }
        ensures sent { sent self.new ≡
            (if is_taken result then with_one_more (sent self.old) else sent self.old) }
        ensures held { held self.new ≡ held self.old }
        ensures current { is_some (current self.new) ≡ is_taken result }
        ensures place { OnTrue (is_taken result)
            (IfSome (sent self.old) (λ lists. current self.new ≡ Some (length lists))) }
        ensures port { listens_at self.new ≡ listens_at self.old }
        ensures cuts { cuts self.new ≡ cuts self.old }
        ensures never_falls { faults self.old ≤ faults self.new }
        ensures cause { OnErr result (Rose (faults self.old) (faults self.new)) };

    /// Reads from the current connection, as a source does.
    fn read(&mut self, buf: &mut [u8]) -> Result<usize, Failed>
        ensures within { ReadsAtMost result buf.new }
        ensures bytes { ReadConsumes (left self.old) (left self.new) result buf.new }
        ensures waiting { waiting self.new ≡ waiting self.old }
        ensures sent { sent self.new ≡ sent self.old }
        ensures held { held self.new ≡ held self.old }
        ensures current { current self.new ≡ current self.old }
        ensures port { listens_at self.new ≡ listens_at self.old }
        ensures faults { faults self.new ≡ faults self.old }
        ensures never_falls { cuts self.old ≤ cuts self.new }
        ensures cause { OnErr result (Rose (cuts self.old) (cuts self.new)) };

    /// Writes to the current connection, as a sink does.
    fn write(&mut self, buf: &[u8]) -> Result<usize, Failed>
        ensures within { WritesAtMost result buf.now }
        ensures progress { IfOk result (λ count. 0 < length buf.now → 0 < count) }
        ensures bytes { MatchResult result
            (λ count. sent self.new ≡
            option_map (with_more_at (current self.old) (take count buf.now)) (sent self.old))
            (λ _. sent self.new ≡ sent self.old) }
        ensures waiting { waiting self.new ≡ waiting self.old }
        ensures left { left self.new ≡ left self.old }
        ensures held { held self.new ≡ held self.old }
        ensures current { current self.new ≡ current self.old }
        ensures port { listens_at self.new ≡ listens_at self.old }
        ensures faults { faults self.new ≡ faults self.old }
        ensures never_falls { cuts self.old ≤ cuts self.new }
        ensures cause { OnErr result (Rose (cuts self.old) (cuts self.new)) };

    /// Ends the current connection, if there is one.
    fn close(&mut self)
        ensures waiting { waiting self.new ≡ waiting self.old }
        ensures sent { sent self.new ≡ sent self.old }
        ensures held { held self.new ≡ held self.old }
        ensures current { current self.new ≡ None }
        ensures port { listens_at self.new ≡ listens_at self.old }
        ensures faults { faults self.new ≡ faults self.old }
        ensures cuts { cuts self.new ≡ cuts self.old };

    /// Whether a connection is known to wait. A door that doesn't tell what waits may answer false
    /// at any time.
    fn more(&mut self) -> bool
        ensures answer { IfSome (waiting self.old) (λ lists. result ≡ nat_lt 0 (length lists)) }
        ensures waiting { waiting self.new ≡ waiting self.old }
        ensures left { left self.new ≡ left self.old }
        ensures sent { sent self.new ≡ sent self.old }
        ensures held { held self.new ≡ held self.old }
        ensures current { current self.new ≡ current self.old }
        ensures port { listens_at self.new ≡ listens_at self.old }
        ensures faults { faults self.new ≡ faults self.old }
        ensures cuts { cuts self.new ≡ cuts self.old };

    /// Puts the current connection aside, open, behind those that already are. False says that
    /// eight are, and then nothing changes.
    fn hold(&mut self) -> bool
        requires { IsSome (current self.old) }
        ensures room { OnTrue result (length (held self.old) < MOST_HELD) }
        ensures full { OnFalse result (length (held self.old) ≡ MOST_HELD) }
        ensures held { held self.new ≡
            (if result then held self.old ++ option_to_list (current self.old) else held self.old) }
        ensures current { current self.new ≡ (if result then None else current self.old) }
        ensures left { OnFalse result (left self.new ≡ left self.old) }
        ensures waiting { waiting self.new ≡ waiting self.old }
        ensures sent { sent self.new ≡ sent self.old }
        ensures port { listens_at self.new ≡ listens_at self.old }
        ensures faults { faults self.new ≡ faults self.old }
        ensures cuts { cuts self.new ≡ cuts self.old };

    /// Makes the first connection that was put aside the current one. False says that none is put
    /// aside, and then nothing changes.
    fn resume(&mut self) -> bool
        ensures taken { OnTrue result
            (TakesHeld (held self.old) (held self.new) (current self.new)) }
        ensures none { OnFalse result (held self.old ≡ []) }
        ensures held { OnFalse result (held self.new ≡ held self.old) }
        ensures current { OnFalse result (current self.new ≡ current self.old) }
        ensures left { OnFalse result (left self.new ≡ left self.old) }
        ensures waiting { waiting self.new ≡ waiting self.old }
        ensures sent { sent self.new ≡ sent self.old }
        ensures port { listens_at self.new ≡ listens_at self.old }
        ensures faults { faults self.new ≡ faults self.old }
        ensures cuts { cuts self.new ≡ cuts self.old };
}
