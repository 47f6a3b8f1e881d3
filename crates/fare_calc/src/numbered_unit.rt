//! How a pricing unit of a construction is priced, with its number.

ghost use Rattle.std.specs.Prelude.{◌≡◌, ◌≤◌, None};
ghost use Rattle.fare_rules.specs.Construction.{greatest_unit, places};
ghost use Rattle.fare_rules.specs.Lawful.{first_broken};
ghost use Rattle.fare_calc.specs.UnitSheets.{FitsUnit, numbered_unit};

use fare_tariff::Edition;
use fare_trip::Trip;
use fare_units::{Construction, MOST_PARTS, UnitKind, UnitSheet, unit_sheet};

/// A pricing unit: its number and how it is priced.
#[derive(Clone, Copy, Debug)]
pub struct NumberedUnit {
    /// Its number, 1 to `MOST_PARTS`.
    pub number: u8,
    /// How it is priced, in hundredths of a NUC.
    pub sheet: UnitSheet,
}

/// A unit that stands in room that is not yet used.
impl Default for NumberedUnit {
    fn default() -> NumberedUnit {
        NumberedUnit {
            number: 1,
            sheet: UnitSheet {
                kind: UnitKind::OW,
                sum: 0,
                minimum: None,
                price: 0,
            },
        }
    }
}

/// A unit of a lawful construction, which has at most `MOST_PARTS`.
pub(crate) fn numbered_unit(
    edition: &Edition,
    trip: &Trip,
    c: &Construction,
    number: u8,
) -> NumberedUnit
    requires lawful { first_broken edition.now trip.now c.now ≡ None }
    requires from_one { 1 ≤ number }
    requires to_greatest { number ≤ greatest_unit c.now (places c.now) }
    requires few { number ≤ MOST_PARTS }
    ensures value { result ≡ numbered_unit edition.now trip.now c.now number }
    ensures fits { FitsUnit result }
{
    let sheet = unit_sheet(edition, trip, c, number);
    NumberedUnit { number, sheet }
}
