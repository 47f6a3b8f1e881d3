ghost use Rattle.std.specs.Prelude.{◌≡◌, ◌⊎◌, ◌+◌, ◌≤◌, [], map, string_bytes, IfSome};
ghost use Rattle.fare_ports.specs.Cause.{Rose};
ghost use Rattle.fare_ports.specs.Keeper.{BodiesStay, WhereTold};
ghost use Rattle.fare_ports.specs.Source.{TakesUpTo, TakesJust};
ghost use Rattle.fare_serve.specs.Desk.{world_of};
ghost use Rattle.fare_serve.specs.Service.{door_state};
ghost use Rattle.fare_run.specs.Ends.{IsEndOf};
ghost use Rattle.fare_run.specs.Limits.{limit_of};
ghost use Rattle.fare_run.specs.Opened.{OpensNamed};
ghost use Rattle.fare_run.specs.Outcome.{IsOutcome};
ghost use Rattle.fare_run.specs.Uses.{LeavesDoor, LeavesSource, LeavesStore, UsesDoor};
ghost use Rattle.fare_words.specs.Words.{command_of};
ghost use Rattle.fare_run.specs.Refusal.{IsSilent};
ghost use Rattle.fare_run.specs.Run.{ComesTo, EndsIn, HasFailed, LeavesBodies, LeavesBodiesAt, ReadsWell};
ghost use Rattle.fare_run.specs.Run.{ServesNobodyAt, Writes};
ghost use Rattle.fare_run.specs.Serve.{EndsServing};

use crate::told::outcome;
use crate::workers::workers_of;
use fare_changes::Watch;
use fare_commands::{Context, Exit, Outcome};
use fare_ports::{Door, Keeper, NoMemory, Sink, Source, write_all};
use fare_split::{SplitQuoter, Turnstile};
use fare_words::read_words;
use std::alloc::Global;
use std::thread::Threads;

/// The whole program, over any source, sink, store and door: does what the words ask, and says how it ended. The gate
/// counts the workers that begin.
///
/// Where the source tells its bytes, the run ends in the answer that the words, those bytes and the bodies of the store
/// define, or in want of memory, `ReadFault`, `KeeperFault` or `WriteFault`; these three come only where the source's,
/// the store's and the sink's count rose in this call, and `KeeperFault` only where the source is within its limit and
/// without a fault. A command that reads no source ends so over any source. All text is built before the first write,
/// so the sink is left alone on every end but `Done` and `WriteFault`, which leave the same store. Only `publish`
/// changes the bodies of the store, by the text of one edition, `serve`, by the publications that it answers, and
/// `migrate`, which spells some first ones anew and changes no edition; a run that ends in want of memory has stored
/// nothing else.
///
/// A command that names a store opens that one and no other, and `serve` listens at the port of its words. A source
/// that is refused, or isn't read, opens no store.
///
/// `serve` lets connections in by the door, which may hold none, and answers them in rounds over the book of the store.
/// It is the only command that touches the door, and lets nobody in where it ends in anything but `Done`, `WriteFault`
/// and `DoorFault`, which comes only where the door's count rose. On the first two all connections that were asked for
/// were taken, or none waits, and its text says how many were served and how many cut off.
pub fn run<R: Threads + Sync, S: Source, K: Sink, P: Keeper, D: Door, W: Watch>(
    rt: &R,
    alloc: Global,
    words: &[String],
    src: &mut S,
    out: &mut K,
    store: &mut P,
    door: &mut D,
    gate: &Turnstile,
    watch: &mut W,
) -> Exit
    requires none_held { UsesDoor (command_of (map string_bytes words.now)) → D.held door.old ≡ [] }
    ensures answer { IfSome (S.left src.old) (λ source. EndsIn (ComesTo (command_of (map string_bytes words.now))
        (HasFailed (Rose (S.faults src.old) (S.faults src.new)) (Rose (P.faults store.old) (P.faults store.new))
        (Rose (D.faults door.old) (D.faults door.new)))
        (IsOutcome (map string_bytes words.now) source (P.bodies store.old) (P.bodies store.new)))
        result (K.taken out.old) (K.taken out.new)) }
    ensures unread { LeavesSource (command_of (map string_bytes words.now)) → EndsIn (ComesTo
        (command_of (map string_bytes words.now)) (HasFailed (Rose (S.faults src.old) (S.faults src.new))
        (Rose (P.faults store.old) (P.faults store.new))
        (Rose (D.faults door.old) (D.faults door.new)))
        (IsOutcome (map string_bytes words.now) [] (P.bodies store.old) (P.bodies store.new)))
        result (K.taken out.old) (K.taken out.new) }
    ensures serving { EndsServing (command_of (map string_bytes words.now))
        (world_of (door_state (D.waiting door.old) (D.sent door.old) (D.listens_at door.old)
        (D.faults door.old) (D.cuts door.old))
        (P.bodies store.old) (P.faults store.old))
        (world_of (door_state (D.waiting door.new) (D.sent door.new) (D.listens_at door.new)
        (D.faults door.new) (D.cuts door.new))
        (P.bodies store.new) (P.faults store.new))
        result (K.taken out.old) (K.taken out.new) }

    // The ends, whether the source tells its bytes or not, and the store its bodies.
    ensures ends { IsEndOf (command_of (map string_bytes words.now)) result }
    ensures read_fault { result ≡ Exit.ReadFault → Rose (S.faults src.old) (S.faults src.new) }
    ensures write_fault { result ≡ Exit.WriteFault → Rose (K.faults out.old) (K.faults out.new) }
    ensures keeper_fault { result ≡ Exit.KeeperFault → Rose (P.faults store.old) (P.faults store.new) }
    ensures keeper_last { result ≡ Exit.KeeperFault →
        IfSome (S.left src.old) (ReadsWell (command_of (map string_bytes words.now))) }
    ensures door_fault { result ≡ Exit.DoorFault → Rose (D.faults door.old) (D.faults door.new) }

    // What is left alone.
    ensures untouched { LeavesSource (command_of (map string_bytes words.now)) → src.new ≡ src.old }
    ensures silent { IsSilent (command_of (map string_bytes words.now)) result → out.new ≡ out.old }
    ensures store { LeavesStore (command_of (map string_bytes words.now)) → store.new ≡ store.old }
    ensures door { LeavesDoor (command_of (map string_bytes words.now)) → door.new ≡ door.old }
    ensures nobody { ServesNobodyAt result → door.new ≡ door.old }

    // By which name the store was opened, if it was; the port is told by `serving`.
    ensures name { OpensNamed (command_of (map string_bytes words.now))
        (P.opened_as store.old) (P.opened_as store.new) result }

    // What the store is left with.
    ensures bodies { WhereTold (P.bodies store.old) (P.bodies store.new)
        (LeavesBodies (command_of (map string_bytes words.now)) (S.left src.old)) }
    ensures refused { LeavesBodiesAt (command_of (map string_bytes words.now)) result →
        WhereTold (P.bodies store.old) (P.bodies store.new) BodiesStay }

    // The source never loses more than one byte above the limit, and no count falls.
    ensures within { TakesUpTo (limit_of (command_of (map string_bytes words.now)) + 1)
        (S.left src.old) (S.left src.new) }
    ensures limit { result ≡ Exit.Limit →
        TakesJust (limit_of (command_of (map string_bytes words.now)) + 1) (S.left src.old) (S.left src.new) }
    ensures source_count { S.faults src.old ≤ S.faults src.new }
    ensures sink_count { K.faults out.old ≤ K.faults out.new }
    ensures store_count { P.faults store.old ≤ P.faults store.new }
    ensures door_count { D.faults door.old ≤ D.faults door.new }
    ensures cut_count { D.cuts door.old ≤ D.cuts door.new }
{
    let asked = match read_words(alloc, words) {
        Ok(asked) => asked,
        Err(NoMemory) => return Exit::Memory,
    };
    let quoter = SplitQuoter::new(workers_of(&asked), gate);
    let context = Context {
        rt,
        alloc,
        quoter: &quoter,
    };
    let outcome = outcome(&context, &asked, src, store, door, watch);
    written(out, outcome)
}

/// Writes the text of an outcome, whole, and ends in its exit.
fn written<K: Sink>(out: &mut K, outcome: Outcome) -> Exit
    ensures writes { Writes outcome result (K.taken out.old) (K.taken out.new) }
    ensures cause { (result ≡ outcome.exit) ⊎ Rose (K.faults out.old) (K.faults out.new) }
    ensures silent { outcome.text ≡ [] → out.new ≡ out.old }
    ensures never_falls { K.faults out.old ≤ K.faults out.new }
{
    let Outcome { exit, text } = outcome;
    if text.is_empty() {
        return exit;
    }
    match write_all(out, text.as_slice()) {
        Ok(()) => exit,
        Err(_) => Exit::WriteFault,
    }
}
