//! When two records are equal.

ghost use Rattle.std.specs.Prelude.{◌≡◌};
ghost use Rattle.fare_changes.specs.SameRecord.{same_record};

use fare_tariff::{Record, same_records};
use std::slice;

/// Whether two records are of one kind and have equal fields.
pub(crate) fn same_record(a: &Record, b: &Record) -> bool
    ensures { result ≡ same_record a.now b.now }
{
    same_records(slice::from_ref(a), slice::from_ref(b))
}
