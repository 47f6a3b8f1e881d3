//! Where an edition holds a record.

ghost use Rattle.std.specs.Prelude.{◌≡◌, true, IsTrue, is_some};
ghost use Rattle.fare_changes.specs.Diff.{is_in};

use crate::same::same_record;
use fare_index::Keyed;
use fare_tariff::{Filed, Record};

/// The place of a record that equals one, if there is one. It is looked for at a place first, since most records stand
/// behind the same one as before.
pub(crate) fn place_of(filed: &Filed, one: &Record, near: usize) -> Option<usize>
    ensures { is_some result ≡ is_in filed.now one.now }
{
    if is_at(filed.records(), one, near) {
        return Some(near);
    }
    place_by_key(filed, one)
}

/// Whether a record equals the one at a place of a list.
fn is_at(records: &[Record], one: &Record, place: usize) -> bool
    ensures { IsTrue result → is_in records.now one.now ≡ true }
{
    match records.get(place) {
        None => false,
        Some(other) => same_record(one, other),
    }
}

/// The place of a record that equals one, if there is one, by its key: one after the other the records with that key are
/// compared, which are few.
fn place_by_key(filed: &Filed, one: &Record) -> Option<usize>
    ensures { is_some result ≡ is_in filed.now one.now }
{
    let mut at = filed.first(&one.key());
    while let Some(place) = at {
        if same_record(one, &filed.records()[place]) {
            return Some(place);
        }
        at = filed.next(place);
    }
    None
}
