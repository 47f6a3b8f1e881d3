//! Items that are answered side by side.

ghost use Rattle.std.specs.Prelude.{◌≡◌, ◌++◌, ◌<◌, ℕ, Option, List, Some, IfOk, IfSome, OnOk, map, length};
ghost use Rattle.std.specs.Prelude.{slice_index_or};
ghost use Rattle.serde_json.specs.View.{items_view, view};
ghost use Rattle.serde_json.specs.declared.value.Value.{Value};
ghost use Rattle.fare_trip.specs.ItineraryText.{trip_of};
ghost use Rattle.fare_changes.specs.declared.compared.Compared.{Compared};
ghost use Rattle.fare_changes.specs.Compared.{AreCompared, IsCompared};
ghost use Rattle.fare_changes.specs.SideBySide.{AreAnswered};

use crate::compared::Compared;
use crate::comparer::Comparer;
use crate::totals::item_compared;
use fare_ports::NoMemory;
use fare_units::Quoter;
use serde_json::Value;
use std::alloc::Global;
use std::thread;
use std::thread::Threads;

/// Appends what each item costs, in order.
pub(crate) fn add_compared<R: Threads + Sync, Q: Quoter + Sync>(
    rt: &R,
    alloc: Global,
    comparer: &Comparer<'_, Q>,
    items: &[Value],
    compared: &mut Vec<Compared>,
) -> Result<(), NoMemory>
    requires { 0 < comparer.now.threads }
    ensures { OnOk result ((part : List Compared) × AreCompared comparer.now.old.now comparer.now.new.now
        (items_view items.now) part × (compared.new.items ≡ compared.old.items ++ part)) }
{
    let answers = answers(rt, alloc, comparer, items)?;
    gather(&answers, compared)
}

/// What each item costs, in order. One that isn't there found memory wanting.
fn answers<R: Threads + Sync, Q: Quoter + Sync>(
    rt: &R,
    alloc: Global,
    comparer: &Comparer<'_, Q>,
    items: &[Value],
) -> Result<Vec<Option<Compared>>, NoMemory>
    requires { 0 < comparer.now.threads }
    ensures { IfOk result (λ answers.
        AreAnswered comparer.now.old.now comparer.now.new.now items.now answers.items) }
{
    let mut answers = Vec::new(alloc);
    answers.resize_with(items.len(), || None)?;
    answer_each(rt, alloc, comparer, items, answers.as_mut_slice());
    Ok(answers)
}

/// Puts what each item costs at its place. One that isn't there found memory wanting.
fn answer_each<R: Threads + Sync, Q: Quoter + Sync>(
    rt: &R,
    alloc: Global,
    comparer: &Comparer<'_, Q>,
    items: &[Value],
    answers: &mut [Option<Compared>],
)
    requires some { 0 < comparer.now.threads }
    requires count { length answers.old ≡ length items.now }
    ensures { (i : ℕ) (value : Value) (answer : Option Compared) → i < length answers.old →
        IfSome (slice_index_or answers.new i answer)
        (IsCompared comparer.now.old.now comparer.now.new.now (trip_of (view (slice_index_or items.now i value)))) }
{
    thread::for_each_mut(
        rt,
        answers,
        comparer.threads,
        &|place: usize, answer: &mut Option<Compared>|
            requires { place < length items.now }
        { *answer = item_compared(rt, alloc, comparer, &items[place]).ok() },
    );
}

/// Appends all answers, if each is there.
fn gather(answers: &[Option<Compared>], compared: &mut Vec<Compared>) -> Result<(), NoMemory>
    ensures { OnOk result ((part : List Compared) × (answers.now ≡ map Some part)
        × (compared.new.items ≡ compared.old.items ++ part)) }
{
    for answer in answers {
        let Some(one) = answer else {
            return Err(NoMemory);
        };
        compared.push(*one)?;
    }
    Ok(())
}
