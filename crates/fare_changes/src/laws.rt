//! What follows for every two editions, with nothing to run: what a diff tells is enough to make the one from the other.

ghost use Rattle.std.specs.Prelude.{◌≡◌, ◌+◌, ◌<◌, ℕ, length, IsPermutation, slice_index_or};
ghost use Rattle.fare_records.specs.declared.record.Record.{Record};
ghost use Rattle.fare_changes.specs.Diff.{added, changed, removed, same_count};

use fare_tariff::Edition;

/// No edition holds a record twice: equal records are at one place.
pub fn records_stand_once(edition: &Edition)
    ensures { (i j : ℕ) (d : Record) → i < length edition.now.records → j < length edition.now.records
        → slice_index_or edition.now.records i d ≡ slice_index_or edition.now.records j d → i ≡ j }
{
    let _records = edition.records();
}

/// The lines of a diff and the records of the one edition give those of the other: the records without the removed ones,
/// and the added ones, are the records of the other in some order.
pub fn lines_give_the_other(old: &Edition, new: &Edition)
    ensures { IsPermutation (changed old.now.records (removed old.now new.now) (added old.now new.now))
        new.now.records }
{
    let _old = old.records();
    let _new = new.records();
}

/// The removed records and the same ones are all of the one edition, the added ones and the same ones all of the other.
pub fn lines_count_all(old: &Edition, new: &Edition)
    ensures old { length (removed old.now new.now) + same_count old.now new.now ≡ length old.now.records }
    ensures new { length (added old.now new.now) + same_count old.now new.now ≡ length new.now.records }
{
    let _old = old.records();
    let _new = new.records();
}
