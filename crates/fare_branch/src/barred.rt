//! Whether the rules on stays and on combined fares bar first parts, whatever follows them.

ghost use Rattle.std.specs.Prelude.{◌≡◌, true};
ghost use Rattle.fare_floors.specs.Floors.{HasNoCompletion, IsMadeWith};

use fare_component::Table;
use fare_floors::Partial;
use fare_units::{is_uncombined, is_untimely, part_at};

/// Whether the last of some first parts does not combine with an earlier one, or shuts its unit with a stay that is not
/// allowed: then they have no completion.
pub fn is_barred(table: &Table, front: &Partial) -> bool
    requires made { IsMadeWith table.now front.now }
    ensures { result ≡ true → HasNoCompletion table.now.edition table.now.trip front.now }
{
    let (edition, trip) = (table.edition(), table.trip());
    let parts = front.parts();
    let unit = part_at(parts, parts.len()).unit;
    is_uncombined(edition, parts) || is_untimely(edition, trip, parts, unit as usize)
}
