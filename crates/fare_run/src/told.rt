//! What a command comes to: its answer, or its refusal with the text that tells it.

ghost use Rattle.std.specs.Prelude.{◌≡◌, ◌≤◌, ◌+◌, [], IfSome};
ghost use Rattle.fare_ports.specs.Cause.{Rose};
ghost use Rattle.fare_ports.specs.Keeper.{BodiesStay, WhereTold};
ghost use Rattle.fare_ports.specs.Source.{TakesJust, TakesUpTo};
ghost use Rattle.fare_serve.specs.Desk.{world_of};
ghost use Rattle.fare_serve.specs.Service.{door_state};
ghost use Rattle.fare_commands.specs.Opened.{IsNamed};
ghost use Rattle.fare_run.specs.Ends.{IsEndBefore};
ghost use Rattle.fare_run.specs.Limits.{limit_of};
ghost use Rattle.fare_run.specs.Opened.{store_of};
ghost use Rattle.fare_run.specs.Outcome.{AnswersCommand};
ghost use Rattle.fare_run.specs.Refusal.{IsSilent, IsTold};
ghost use Rattle.fare_run.specs.Uses.{IsWithin, LeavesDoor, LeavesSource, LeavesStore, UsesDoor};
ghost use Rattle.fare_run.specs.Run.{ComesTo, HasFailed, LeavesBodies, LeavesBodiesAt, ReadsWell, ServesNobodyAt};
ghost use Rattle.fare_run.specs.Serve.{ComesServing};

use crate::answer::answer;
use crate::json_fault::refused;
use fare_changes::Watch;
use fare_commands::{Context, Exit, Outcome};
use fare_ports::{Door, Keeper, Source};
use fare_words::Command;
use std::alloc::Global;
use std::thread::Threads;

/// What a command comes to, over its source, its store and its door.
pub fn outcome<R: Threads + Sync, S: Source, P: Keeper, D: Door, W: Watch>(
    context: &Context<'_, R>,
    asked: &Option<Command<'_>>,
    src: &mut S,
    store: &mut P,
    door: &mut D,
    watch: &mut W,
) -> Outcome
    requires within { IsWithin asked.now }
    requires none_held { UsesDoor asked.now → D.held door.old ≡ [] }
    ensures comes { IfSome (S.left src.old) (λ source. ComesTo asked.now
        (HasFailed (Rose (S.faults src.old) (S.faults src.new)) (Rose (P.faults store.old) (P.faults store.new))
        (Rose (D.faults door.old) (D.faults door.new)))
        (AnswersCommand asked.now source (P.bodies store.old) (P.bodies store.new)) result) }
    ensures unread { LeavesSource asked.now → ComesTo asked.now
        (HasFailed (Rose (S.faults src.old) (S.faults src.new)) (Rose (P.faults store.old) (P.faults store.new))
        (Rose (D.faults door.old) (D.faults door.new)))
        (AnswersCommand asked.now [] (P.bodies store.old) (P.bodies store.new)) result }
    ensures ends { IsEndBefore asked.now result.exit }
    ensures silent { IsSilent asked.now result.exit → result.text ≡ [] }

    ensures untouched { LeavesSource asked.now → src.new ≡ src.old }
    ensures within { TakesUpTo (limit_of asked.now + 1) (S.left src.old) (S.left src.new) }
    ensures limit { result.exit ≡ Exit.Limit → TakesJust (limit_of asked.now + 1) (S.left src.old) (S.left src.new) }
    ensures source_count { S.faults src.old ≤ S.faults src.new }
    ensures read_fault { result.exit ≡ Exit.ReadFault → Rose (S.faults src.old) (S.faults src.new) }

    ensures store { LeavesStore asked.now → store.new ≡ store.old }
    ensures bodies { WhereTold (P.bodies store.old) (P.bodies store.new) (LeavesBodies asked.now (S.left src.old)) }
    ensures refused { LeavesBodiesAt asked.now result.exit →
        WhereTold (P.bodies store.old) (P.bodies store.new) BodiesStay }
    ensures name { IfSome (store_of asked.now) (λ name.
        IsNamed name (P.opened_as store.old) (P.opened_as store.new) result.exit) }
    ensures store_count { P.faults store.old ≤ P.faults store.new }
    ensures keeper_fault { result.exit ≡ Exit.KeeperFault → Rose (P.faults store.old) (P.faults store.new) }
    ensures keeper_last { result.exit ≡ Exit.KeeperFault → IfSome (S.left src.old) (ReadsWell asked.now) }

    ensures serving { ComesServing asked.now
        (world_of (door_state (D.waiting door.old) (D.sent door.old) (D.listens_at door.old)
        (D.faults door.old) (D.cuts door.old))
        (P.bodies store.old) (P.faults store.old))
        (world_of (door_state (D.waiting door.new) (D.sent door.new) (D.listens_at door.new)
        (D.faults door.new) (D.cuts door.new))
        (P.bodies store.new) (P.faults store.new))
        result }
    ensures door { LeavesDoor asked.now → door.new ≡ door.old }
    ensures nobody { ServesNobodyAt result.exit → door.new ≡ door.old }
    ensures door_fault { result.exit ≡ Exit.DoorFault → Rose (D.faults door.old) (D.faults door.new) }
    ensures door_count { D.faults door.old ≤ D.faults door.new }
    ensures cut_count { D.cuts door.old ≤ D.cuts door.new }
{
    let answer = answer(context, asked, src, store, door, watch);
    told(context.alloc, asked, answer)
}

/// What a command comes to by its answer.
fn told(alloc: Global, asked: &Option<Command<'_>>, answer: Result<Outcome, Exit>) -> Outcome
    ensures { IsTold asked.now answer result }
{
    match answer {
        Ok(outcome) => outcome,
        Err(exit) => refused(alloc, asked, exit),
    }
}
