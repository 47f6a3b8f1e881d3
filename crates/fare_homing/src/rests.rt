//! Rests: what is behind each point of a trip at least where no unit is open, where some fares are barred.

ghost use Rattle.std.specs.Prelude.{◌≡◌, ℕ, Option};
ghost use Rattle.fare_bounds.specs.Covers.{rest_at};
ghost use Rattle.fare_homing.specs.HomingRows.{AreRests};
ghost use Rattle.fare_homing.specs.Rows.{begun_from, jaw_from, AreHomingsOf};

use crate::between::start_at;
use crate::homing::Homing;
use crate::reaching::least_onward;
use crate::whole::wholes_at;
use fare_component::Table;
use fare_legs::{Floor, NOTHING, legs_behind};
use fare_rules::MOST_POINTS;

/// What is behind each point of a trip at least where no unit is open, and units that begin there have none of the
/// rules of some fares.
pub(crate) fn rests_without(table: &Table, homing: &Homing, barred: &[u32]) -> [Floor; MOST_POINTS]
    requires { AreHomingsOf table.now.edition table.now.trip homing.now }
    ensures { (whole : ℕ → ℕ → Option ℕ) × AreRests table.now.edition table.now.trip barred.now
        (begun_from homing.now) (jaw_from homing.now) whole (rest_at result) }
{
    let count = table.trip().count();
    let legs = legs_behind(table, barred);
    let mut rest = [NOTHING; MOST_POINTS];
    rest[count] = Floor::of(Some(0));
    for c in (0..count).rev() {
        let start = start_at(table, &legs, &homing.countries, barred, c);
        let whole = wholes_at(table, homing, &start);
        rest[c] = least_onward(&whole, &rest, c, count + 1);
    }
    rest
}
