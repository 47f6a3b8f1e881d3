//! What a command is answered.

ghost use Rattle.std.specs.Prelude.{◌≡◌, ◌≤◌, [], IfErr, IfOk, IfSome, IsErrOf, OnOk};
ghost use Rattle.fare_codes.specs.declared.limits.TheConstants.{MOST_WORKERS};
ghost use Rattle.fare_ports.specs.Cause.{Rose};
ghost use Rattle.fare_ports.specs.Keeper.{BodiesStay, WhereTold};
ghost use Rattle.fare_serve.specs.Desk.{world_of};
ghost use Rattle.fare_serve.specs.Service.{door_state};
ghost use Rattle.fare_commands.specs.Opened.{Names};
ghost use Rattle.fare_commands.specs.Steps.{Answers, IsKeeping, IsReading};
ghost use Rattle.fare_run.specs.Ends.{IsRefusalOf};
ghost use Rattle.fare_run.specs.Limits.{limit_of};
ghost use Rattle.fare_run.specs.Opened.{store_of};
ghost use Rattle.fare_run.specs.Outcome.{AnswersCommand};
ghost use Rattle.fare_run.specs.Refusal.{HasOwnText};
ghost use Rattle.fare_run.specs.Uses.{HasText, IsWithin, LeavesDoor, LeavesSource, LeavesStore, UsesDoor};
ghost use Rattle.fare_run.specs.Run.{LeavesBodies, LeavesBodiesAt, ReadsWell, ServesNobodyAt};
ghost use Rattle.fare_run.specs.Serve.{ServesCommand};

use crate::serve::serve;
use fare_changes::Watch;
use fare_commands::{
    Comparison, Context, Exit, Outcome, Question, check, compare, diff, drill, export, list,
    migrate, price, publish, stored_quote,
};
use fare_ports::{Door, Keeper, Source};
use fare_serve::Service;
use fare_split::{SplitQuoter, Turnstile};
use fare_words::Command;
use std::thread::Threads;

/// What a command comes to, or what refuses it: `Usage` where words give none.
#[tactic(auto, unfolding(fare_words::specs::WithinLimits::IsWithinLimits))]
pub fn answer<R: Threads + Sync, S: Source, P: Keeper, D: Door, W: Watch>(
    context: &Context<'_, R>,
    asked: &Option<Command<'_>>,
    src: &mut S,
    store: &mut P,
    door: &mut D,
    watch: &mut W,
) -> Result<Outcome, Exit>
    requires within { IsWithin asked.now }
    requires none_held { UsesDoor asked.now → D.held door.old ≡ [] }
    ensures answer { IfSome (S.left src.old) (λ source.
        Answers (AnswersCommand asked.now source (P.bodies store.old) (P.bodies store.new)) result) }
    ensures unread { LeavesSource asked.now →
        Answers (AnswersCommand asked.now [] (P.bodies store.old) (P.bodies store.new)) result }
    ensures own { IfOk result (λ ending. HasOwnText asked.now ending.exit) }
    ensures text { OnOk result (HasText asked.now) }
    ensures ends { IfErr result (IsRefusalOf asked.now) }

    ensures untouched { LeavesSource asked.now → src.new ≡ src.old }
    ensures reading { IsReading (limit_of asked.now) result
        (S.left src.old) (S.left src.new) (S.faults src.old) (S.faults src.new) }

    ensures store { LeavesStore asked.now → store.new ≡ store.old }
    ensures bodies { WhereTold (P.bodies store.old) (P.bodies store.new) (LeavesBodies asked.now (S.left src.old)) }
    ensures refused { IfErr result (λ exit. LeavesBodiesAt asked.now exit →
        WhereTold (P.bodies store.old) (P.bodies store.new) BodiesStay) }
    ensures name { IfSome (store_of asked.now) (λ name.
        Names name (P.opened_as store.old) (P.opened_as store.new) result) }
    ensures keeping { IsKeeping result (P.faults store.old) (P.faults store.new) }
    ensures keeper_last { IsErrOf result Exit.KeeperFault → IfSome (S.left src.old) (ReadsWell asked.now) }

    ensures serving { ServesCommand asked.now
        (world_of (door_state (D.waiting door.old) (D.sent door.old) (D.listens_at door.old)
        (D.faults door.old) (D.cuts door.old))
        (P.bodies store.old) (P.faults store.old))
        (world_of (door_state (D.waiting door.new) (D.sent door.new) (D.listens_at door.new)
        (D.faults door.new) (D.cuts door.new))
        (P.bodies store.new) (P.faults store.new))
        result }
    ensures door { LeavesDoor asked.now → door.new ≡ door.old }
    ensures nobody { IfErr result (λ exit. ServesNobodyAt exit → door.new ≡ door.old) }
    ensures door_cause { IsErrOf result Exit.DoorFault → Rose (D.faults door.old) (D.faults door.new) }
    ensures faults { D.faults door.old ≤ D.faults door.new }
    ensures cuts { D.cuts door.old ≤ D.cuts door.new }
{
    let Some(command) = asked else {
        return Err(Exit::Usage);
    };
    match command {
        Command::Price { asked, json, .. } => price(context, src, Question::new(*asked, *json)),
        Command::Publish { store: name } => publish(context, src, store, name.as_str()),
        Command::List { store: name, json } => list(context, store, name.as_str(), *json),
        Command::Export {
            store: name,
            edition,
        } => export(context, store, name.as_str(), *edition),
        Command::Quote {
            store: name,
            asked,
            json,
            ..
        } => {
            let question = Question::new(*asked, *json);
            stored_quote(context, src, store, name.as_str(), question)
        }
        Command::Drill {
            seed,
            sectors,
            extra,
            ..
        } => drill(context, *seed, *sectors, *extra),
        Command::Serve {
            store: name,
            port,
            count,
            round,
            ..
        } => {
            let service = service_of(*port, *count, *round, context.quoter);
            serve(context, store, door, name.as_str(), &service)
        }
        Command::Migrate { store: name } => migrate(context, store, name.as_str()),
        Command::Check => check(context, src),
        Command::Diff {
            store: name,
            from,
            to,
        } => diff(context, store, name.as_str(), *from, *to),
        Command::Compare {
            store: name,
            from,
            to,
            ..
        } => {
            let comparison = Comparison {
                name: name.as_str(),
                from: *from,
                to: *to,
            };
            compare(context, src, store, comparison, watch)
        }
    }
}

/// The service of a port, of so many connections in rounds, by the workers of a quoter.
fn service_of<'g>(
    port: u16,
    count: u32,
    round: u32,
    quoter: &SplitQuoter<'g, Turnstile>,
) -> Service<'g>
    ensures port { result.port ≡ port }
    ensures count { result.count ≡ count }
    ensures round { result.round ≡ round }
    ensures workers { result.workers ≡ quoter.now.workers }
    ensures gate { result.gate.now ≡ quoter.now.gate.now }
    ensures some_workers { 1 ≤ result.workers }
    ensures few_workers { result.workers ≤ MOST_WORKERS }
{
    Service {
        port,
        count,
        round,
        workers: quoter.workers,
        gate: quoter.gate,
    }
}
