//! Barring: what is behind some first parts at least where no unit is open, without the fares that they bar.

ghost use Rattle.std.specs.Prelude.{◌≡◌, ◌<◌, slice_index_or};
ghost use Rattle.fare_floors.specs.Barring.{left_of};
ghost use Rattle.fare_homing.specs.Onward.{no_onward};
ghost use Rattle.fare_homing.specs.Rows.{AreHomingsOf};

use fare_component::Table;
use fare_homing::{Floor, Homing, MOST_SETS, Onward, next_set};
use fare_rules::{MOST_POINTS, Part};
use fare_units::part_at;

/// All that is behind each point, by the place of its numbers.
fn rest_in(sets: &[Onward; MOST_SETS], set: usize) -> [Floor; MOST_POINTS]
    requires { set < MOST_SETS }
    ensures { result ≡ (slice_index_or sets.now set no_onward).rest }
{
    sets[set].rest
}

/// All that is behind each point at least where no unit is open, without the fares that some parts bar.
pub(crate) fn left_of(table: &Table, homing: &Homing, parts: &[Part]) -> [Floor; MOST_POINTS]
    requires homing { AreHomingsOf table.now.edition table.now.trip homing.now }
    ensures { result ≡ left_of table.now.edition homing.now parts.now }
{
    let edition = table.edition();
    let mut set = 0;
    for k in 1..parts.len() + 1 {
        set = next_set(edition, &homing.onwards, set, part_at(parts, k).fare);
    }
    rest_in(&homing.onwards.sets, set)
}
