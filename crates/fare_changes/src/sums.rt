//! The sums of the totals of items.

ghost use Rattle.std.specs.Prelude.{◌≡◌, ◌^◌, ◌<◌, sum_by};
ghost use Rattle.fare_changes.specs.CompareText.{new_total, old_total};

use crate::compared::Compared;

/// The sums of the old and of the new totals of the items that have both, in NUC hundredths.
#[derive(Clone, Copy)]
pub(crate) struct Sums {
    /// The sum of the old totals.
    pub old: u128,
    /// The sum of the new totals.
    pub new: u128,
}

/// The two totals of an item that has both, else 0.
fn totals_of(one: &Compared) -> (u64, u64)
    ensures old { result.0 ≡ old_total one.now }
    ensures new { result.1 ≡ new_total one.now }
{
    match *one {
        Compared::Totals(Some(old), Some(new)) => (old, new),
        _ => (0, 0),
    }
}

/// The sums of items. They can't overflow: a list has fewer than 2^64 items, and each total is below 2^64.
pub(crate) fn sums_of(compared: &[Compared]) -> Sums
    ensures old { result.old ≡ sum_by old_total compared.now }
    ensures new { result.new ≡ sum_by new_total compared.now }
{
    let mut sums = Sums { old: 0, new: 0 };
    for one in compared {
        let (old, new) = totals_of(one);
        sums.old += u128::from(old);
        sums.new += u128::from(new);
    }
    sums
}
