//! About how much work the first-part choices are, so that pieces can have as much of it each. No answer depends on it,
//! and no contract speaks of it.

use fare_component::Table;

/// How often the work of a choice is that of one which ends a sector later. Searches that prune little have more, those
/// that prune much less.
const MORE_WORK: u64 = 3;

/// How many first-part choices end at a point.
fn choices_to(table: &Table, end: usize) -> u32 {
    let mut count: u32 = 0;
    for entry in table.entries(0, end) {
        if entry.out.is_some() {
            count = count.saturating_add(1);
        }
    }
    count
}

/// How much work a choice is that ends at a point: one that ends with the trip is 1.
fn work_to(table: &Table, end: usize) -> u64 {
    let mut work: u64 = 1;
    for _sector in end..table.trip().count() {
        work = work.saturating_mul(MORE_WORK);
    }
    work
}

/// How much work all first-part choices are.
pub(crate) fn whole_work(table: &Table) -> u64 {
    let mut whole: u64 = 0;
    for end in 1..table.trip().count() + 1 {
        let here = (choices_to(table, end) as u64).saturating_mul(work_to(table, end));
        whole = whole.saturating_add(here);
    }
    whole
}

/// How many of the first choices are together no more than some work.
pub(crate) fn choices_within(table: &Table, work: u64) -> u32 {
    let mut left = work;
    let mut number: u32 = 0;
    for end in (1..table.trip().count() + 1).rev() {
        let here = choices_to(table, end);
        let each = work_to(table, end);
        let taken = (left / each.max(1)).min(here as u64) as u32;
        number = number.saturating_add(taken);
        if taken < here {
            return number;
        }
        left = left.saturating_sub((here as u64).saturating_mul(each));
    }
    number
}
