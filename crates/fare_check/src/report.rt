//! The report of faults, of which the first are shown and the others counted.

ghost use Rattle.std.specs.Prelude.{◌≡◌, ◌+◌, ◌≤◌, ◌++◌, ◌∷◌, [], ℕ, List, length, nat_le, Some, None};
ghost use Rattle.std.specs.Prelude.{IfOk, OnOk};
ghost use Rattle.fare_check.specs.CheckText.{line_of, lines_text, more_line};
ghost use Rattle.fare_check.specs.Reports.{WasTold, finished};

use crate::grounds::Grounds;
use crate::line::{push_bare_line, push_line};
use fare_csv::{Row, TextFault};
use fare_ports::NoMemory;
use fare_text::push_whole;
use std::alloc::Global;

/// So many faults are shown, each in a line.
pub const MOST_LINES: usize = 100;

/// A line shows so many bytes of its record.
pub const MOST_BYTES: usize = 120;

/// The lines of the first faults, and how many faults were told.
#[derive(Drop)]
pub(crate) struct Report {
    pub text: Vec<u8>,
    pub count: usize,
}

impl Report {
    /// A report of no fault.
    pub(crate) fn new(alloc: Global) -> Report
        ensures text { (lines : List (List ℕ)) → finished result lines ≡ lines_text lines }
        ensures count { result.count ≡ 0 }
    {
        Report {
            text: Vec::new(alloc),
            count: 0,
        }
    }

    /// Whether it shows as many faults as it may.
    pub(crate) fn is_full(&self) -> bool
        ensures { result ≡ nat_le MOST_LINES self.now.count }
    {
        self.count >= MOST_LINES
    }

    /// Counts so many faults that aren't shown, as a full report may.
    pub(crate) fn count_more(&mut self, more: usize) -> Result<(), NoMemory>
        requires { MOST_LINES ≤ self.old.count }
        ensures { (lines : List (List ℕ)) → length lines ≡ more → OnOk result (WasTold self.old lines self.new) }
    {
        self.add(more)
    }

    /// Tells a fault that the record of a row has.
    pub(crate) fn tell(
        &mut self,
        alloc: Global,
        grounds: &Grounds,
        row: &Row,
        fault: TextFault,
    ) -> Result<(), NoMemory>
        ensures { OnOk result (WasTold self.old
            (line_of grounds.now.version grounds.now.filed.now (record { fault = fault; row = Some row.now }) ∷ [])
            self.new) }
    {
        if self.is_full() {
            return self.add(1);
        }
        push_line(&mut self.text, alloc, grounds, row, fault)?;
        self.add(1)
    }

    /// Tells a fault that no record has.
    pub(crate) fn tell_bare(
        &mut self,
        alloc: Global,
        grounds: &Grounds,
        fault: TextFault,
    ) -> Result<(), NoMemory>
        ensures { OnOk result (WasTold self.old
            (line_of grounds.now.version grounds.now.filed.now (record { fault = fault; row = None }) ∷ []) self.new) }
    {
        if self.is_full() {
            return self.add(1);
        }
        push_bare_line(&mut self.text, alloc, grounds, fault)?;
        self.add(1)
    }

    /// Counts so many faults; a text in memory has too few records for the count to end.
    fn add(&mut self, more: usize) -> Result<(), NoMemory>
        ensures { OnOk result (self.new ≡ record self.old { count = self.old.count + more }) }
    {
        match self.count.checked_add(more) {
            None => Err(NoMemory),
            Some(count) => {
                self.count = count;
                Ok(())
            }
        }
    }

    /// The text, with the line that counts the faults that aren't shown.
    pub(crate) fn into_text(self) -> Result<Vec<u8>, NoMemory>
        ensures { IfOk result (λ text. text.items ≡ finished self []) }
    {
        let mut text = self.text;
        push_more(&mut text, self.count.saturating_sub(MOST_LINES))?;
        Ok(text)
    }
}

/// Appends how many faults aren't shown, where there are some.
#[tactic(auto, unfolding(crate::specs::CheckText::more_line))]
fn push_more(text: &mut Vec<u8>, hidden: usize) -> Result<(), NoMemory>
    ensures { OnOk result (text.new.items ≡ text.old.items ++ more_line hidden) }
{
    if hidden == 0 {
        return Ok(());
    }
    text.extend_from_slice(b"MORE ")?;
    push_whole(text, hidden as u128)?;
    Ok(text.push(b'\n')?)
}
