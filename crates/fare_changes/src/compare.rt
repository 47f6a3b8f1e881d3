//! The text that compares what trips cost in two editions.

ghost use Rattle.std.specs.Prelude.{◌≡◌, ◌<◌, IfOk};
ghost use Rattle.serde_json.specs.View.{items_view};
ghost use Rattle.fare_changes.specs.Compared.{AreCompared};
ghost use Rattle.fare_changes.specs.CompareText.{IsCompareText, compare_text};

use crate::compared::Compared;
use crate::comparer::Comparer;
use crate::item_line::push_items;
use crate::side_by_side::add_compared;
use crate::sum_line::push_sum_line;
use crate::watch::Watch;
use fare_ports::NoMemory;
use fare_units::Quoter;
use serde_json::Value;
use std::alloc::Global;
use std::thread::Threads;

/// So many items are answered side by side before whoever watches is told.
const AT_ONCE: usize = 256;

/// A line for each item of a batch: its total in the one edition, in the other, and the change; or its first fault, or
/// the first point of which neither edition has a record. Then the line that counts and sums them up. Neither edition
/// is selected by a sale day, and whoever watches changes nothing of the text.
pub fn compare_text<R: Threads + Sync, Q: Quoter + Sync, W: Watch>(
    rt: &R,
    alloc: Global,
    comparer: &Comparer<'_, Q>,
    items: &[Value],
    watch: &mut W,
) -> Result<Vec<u8>, NoMemory>
    requires { 0 < comparer.now.threads }
    ensures { IfOk result (λ text. IsCompareText comparer.now.old.now comparer.now.new.now (items_view items.now)
        text.items) }
{
    let compared = compared_items(rt, alloc, comparer, items, watch)?;
    compared_text(
        alloc,
        comparer.old.number(),
        comparer.new.number(),
        compared.as_slice(),
    )
}

/// What each item costs, in order. So many at once are answered side by side, and whoever watches is told after these.
fn compared_items<R: Threads + Sync, Q: Quoter + Sync, W: Watch>(
    rt: &R,
    alloc: Global,
    comparer: &Comparer<'_, Q>,
    items: &[Value],
    watch: &mut W,
) -> Result<Vec<Compared>, NoMemory>
    requires { 0 < comparer.now.threads }
    ensures { IfOk result (λ compared. AreCompared comparer.now.old.now comparer.now.new.now (items_view items.now)
        compared.items) }
{
    let mut compared = Vec::new(alloc);
    let mut done = 0;
    while done < items.len() {
        let end = done + AT_ONCE.min(items.len() - done);
        add_compared(rt, alloc, comparer, &items[done..end], &mut compared)?;
        done = end;
        watch.done(done, items.len());
    }
    Ok(compared)
}

/// The text of the items of a batch over two editions of these numbers.
#[tactic(auto, unfolding(crate::specs::CompareText::compare_text))]
fn compared_text(
    alloc: Global,
    old: u32,
    new: u32,
    compared: &[Compared],
) -> Result<Vec<u8>, NoMemory>
    ensures { IfOk result (λ text. text.items ≡ compare_text old new compared.now) }
{
    let mut text = Vec::new(alloc);
    push_items(&mut text, compared)?;
    push_sum_line(&mut text, old, new, compared)?;
    Ok(text)
}
