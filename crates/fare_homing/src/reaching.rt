//! Reaching: the least by which a point of a trip is reached, over steps to the points before it.

ghost use Rattle.std.specs.Prelude.{◌≡◌, ℕ, ◌+◌, ◌<◌, ◌≤◌};
ghost use Rattle.fare_bounds.specs.Covers.{rest_at};
ghost use Rattle.fare_legs.specs.Costs.{IsUpTo};
ghost use Rattle.fare_homing.specs.HomingRows.{IsUnderBoth};
ghost use Rattle.fare_homing.specs.Rows.{cell};

use fare_legs::{Floor, NOTHING, added, lesser, number_at};
use fare_rules::MOST_POINTS;

/// The lesser of two rows at each place.
pub(crate) fn lesser_of(
    row: &[Floor; MOST_POINTS],
    other: &[Floor; MOST_POINTS],
) -> [Floor; MOST_POINTS]
    ensures kept { (j most : ℕ) → IsUpTo most (rest_at row.now j) → IsUpTo most (rest_at result j) }
    ensures under { (j most : ℕ) → IsUpTo most (rest_at other.now j) → IsUpTo most (rest_at result j) }
{
    let mut least = [NOTHING; MOST_POINTS];
    for j in 0..MOST_POINTS {
        let one = number_at(row, j);
        let another = number_at(other, j);
        least[j] = lesser(one, another);
    }
    least
}

/// A row whose numbers are lowered to a step with what is behind it.
pub(crate) fn lowered(
    row: &[Floor; MOST_POINTS],
    step: Floor,
    behind: &[Floor; MOST_POINTS],
) -> [Floor; MOST_POINTS]
    ensures kept { (j most : ℕ) → IsUpTo most (rest_at row.now j) → IsUpTo most (rest_at result j) }
    ensures under { (j x y : ℕ) → IsUpTo x step → IsUpTo y (rest_at behind.now j) → IsUpTo (x + y) (rest_at result j) }
{
    let mut lowered = [NOTHING; MOST_POINTS];
    for j in 0..MOST_POINTS {
        let here = number_at(row, j);
        let more = number_at(behind, j);
        lowered[j] = lesser(here, added(step, more));
    }
    lowered
}

/// A row whose numbers are lowered to each step from a point with what is behind it.
pub(crate) fn lowered_by(
    row: &[Floor; MOST_POINTS],
    steps: &[Floor; MOST_POINTS],
    behind: &[[Floor; MOST_POINTS]; MOST_POINTS],
    i: usize,
) -> [Floor; MOST_POINTS]
    requires { i < MOST_POINTS }
    ensures kept { (j most : ℕ) → IsUpTo most (rest_at row.now j) → IsUpTo most (rest_at result j) }
    ensures under { IsUnderBoth (rest_at steps.now) (cell behind.now) i (rest_at result) }
{
    let mut least = *row;
    for b in i + 1..MOST_POINTS {
        let step = number_at(steps, b);
        if step.is_nothing() {
            continue;
        }
        least = lowered(&least, step, &behind[b]);
    }
    least
}

/// The least of all steps from a point to one before another, with what is behind that.
pub(crate) fn least_onward(
    steps: &[Floor; MOST_POINTS],
    rests: &[Floor; MOST_POINTS],
    i: usize,
    past: usize,
) -> Floor
    requires rises { i < past }
    requires within { past ≤ MOST_POINTS }
    ensures { (b x y : ℕ) → i < b → b < past → IsUpTo x (rest_at steps.now b) → IsUpTo y (rest_at rests.now b)
        → IsUpTo (x + y) result }
{
    let mut least = NOTHING;
    for b in i + 1..past {
        let step = number_at(steps, b);
        let rest = number_at(rests, b);
        least = lesser(least, added(step, rest));
    }
    least
}
