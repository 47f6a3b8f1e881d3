//! What changed between editions.

use super::changes::CHANGES;
use fare_changes::{diff_text, lines_count_all, lines_give_the_other, records_stand_once};
use fare_csv::read_edition;
use std::alloc::Global;
use std::test::Fail;
use std::thread::Threads;

/// Two editions and what changed between them.
pub struct Change {
    pub old: &'static str,
    pub new: &'static str,
    pub text: &'static str,
}

/// Whether that is the text of what changed. The laws take any two editions.
fn holds<R: Threads + Sync>(rt: &R, alloc: Global, change: &Change) -> Result<bool, Fail> {
    let old = read_edition(rt, alloc, change.old.as_bytes())?;
    let new = read_edition(rt, alloc, change.new.as_bytes())?;
    records_stand_once(&old);
    lines_give_the_other(&old, &new);
    lines_count_all(&old, &new);
    let text = diff_text(alloc, &old, &new)?;
    Ok(text.as_slice() == change.text.as_bytes())
}

#[test]
fn changes_are_told(rt: HostRuntime) -> Result<(), Fail> {
    for change in &CHANGES {
        assert!(rt; holds(&rt, rt.alloc(), change)?, "{}", change.text);
    }
    Ok(())
}
