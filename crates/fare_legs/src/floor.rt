//! A floor: what something costs at least. It is small, since a trip has thousands of them.

ghost use Rattle.std.specs.Prelude.{◌≡◌, None, is_some, not, option_map};
ghost use Rattle.fare_bounds.specs.Covers.{lesser, rest_at};
ghost use Rattle.fare_legs.specs.Floor.{added, capped, capped_sum, greater};

use fare_rules::MOST_POINTS;
use std::marker::Model;

/// What stands for nothing.
const NO_HUNDREDTHS: u32 = u32::MAX;

/// The greatest floor, in NUC hundredths: what costs more has this one.
pub const GREATEST_FLOOR: u32 = u32::MAX - 1;

/// What something costs at least, in NUC hundredths; nothing where it can't be had. A contract sees the number.
#[derive(Clone, Copy)]
pub struct Floor {
    hundredths: u32,
}

impl Model for Floor {
    ghost use Rattle.std.specs.Prelude.{ℕ, Option};
    ghost use Rattle.fare_legs.specs.Floor.{amount_of, hundredths_of};

    ghost Value = { Option ℕ };

    ghost view = { λ f. amount_of f.hundredths };

    ghost inverse = { λ amount. record { hundredths = hundredths_of amount } };
}

/// The floor of what can't be had.
pub const NOTHING: Floor = Floor {
    hundredths: NO_HUNDREDTHS,
};

impl Floor {
    /// The floor of what costs so many NUC hundredths, or can't be had.
    pub fn of(amount: Option<u64>) -> Floor
        ensures { result ≡ option_map capped amount }
    {
        match amount {
            None => NOTHING,
            Some(hundredths) => Floor {
                hundredths: hundredths.min(GREATEST_FLOOR as u64) as u32,
            },
        }
    }

    /// The floor in NUC hundredths.
    pub fn amount(self) -> Option<u64>
        ensures { result ≡ self }
    {
        if self.hundredths == NO_HUNDREDTHS {
            None
        } else {
            Some(self.hundredths as u64)
        }
    }

    /// Whether this is the floor of what can't be had.
    pub fn is_nothing(self) -> bool
        ensures { result ≡ not (is_some self) }
    {
        self.hundredths == NO_HUNDREDTHS
    }
}

/// The lesser of two floors, where either may be missing.
pub fn lesser(a: Floor, b: Floor) -> Floor
    ensures { result ≡ lesser a b }
{
    Floor {
        hundredths: a.hundredths.min(b.hundredths),
    }
}

/// The sum of two floors, where there are both: at most the greatest floor. It is made before anything is asked, so that
/// a row of floors is added four at once.
pub fn added(a: Floor, b: Floor) -> Floor
    ensures { result ≡ added a b }
{
    let sum = a
        .hundredths
        .saturating_add(b.hundredths)
        .min(GREATEST_FLOOR);
    if a.is_nothing() || b.is_nothing() {
        return NOTHING;
    }
    Floor { hundredths: sum }
}

/// The greater of two floors; nothing where one of them isn't there.
pub fn greater(a: Floor, b: Floor) -> Floor
    ensures { result ≡ greater a b }
{
    Floor {
        hundredths: a.hundredths.max(b.hundredths),
    }
}

/// What is paid, in NUC hundredths, with a floor of what is behind: at most the greatest number of 64 bits.
pub fn paid_with(paid: u64, behind: Floor) -> Option<u64>
    ensures { result ≡ option_map (capped_sum paid) behind }
{
    match behind.amount() {
        None => None,
        Some(hundredths) => Some(paid.saturating_add(hundredths)),
    }
}

/// A number of a row by its point.
pub fn number_at(row: &[Floor; MOST_POINTS], j: usize) -> Floor
    ensures { result ≡ rest_at row.now j }
{
    if j < MOST_POINTS { row[j] } else { NOTHING }
}
