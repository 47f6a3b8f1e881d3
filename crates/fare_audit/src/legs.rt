//! The sectors of a line in the order of travel.

ghost use Rattle.std.specs.Prelude.{◌≡◌, ◌+◌, ◌≤◌, ◌++◌, true, length, map};
ghost use Rattle.fare_audit.specs.Legs.{gap_legs, legs_from, legs_of, part_legs};
ghost use Rattle.fare_line.specs.Line.{are_parts, gap_count};
ghost use Rattle.fare_audit.specs.declared.legs.Leg.TheVariants.{Flown};

use arrayvec::ArrayVec;
use fare_codes::{City, MOST_SECTORS};
use fare_line::{Line, LinePart, LineSector};

/// A sector of a line.
#[derive(Clone, Copy, Debug)]
pub(crate) enum Leg {
    /// A surface sector, which leads to this city.
    Surface(City),
    /// A flown sector.
    Flown(LineSector),
}

/// A sector that stands in room that is not yet used.
impl Default for Leg {
    fn default() -> Leg {
        Leg::Surface(City::default())
    }
}

/// The sectors of a line, as many as those of a trip at most.
pub(crate) type Legs = ArrayVec<Leg, MOST_SECTORS>;

/// The sectors of a line, gaps among them.
pub(crate) fn legs_of(line: &Line) -> Legs
    ensures { result.items ≡ legs_of line.now }
{
    line.law();
    legs_from(line.sectors.as_slice(), line.parts.as_slice())
}

/// The sectors of parts that share these flown ones, part after part.
fn legs_from(sectors: &[LineSector], parts: &[LinePart]) -> Legs
    requires { are_parts 0 (length sectors.now) parts.now ≡ true }
    ensures { result.items ≡ legs_from 0 sectors.now parts.now }
{
    let mut legs = ArrayVec::new();
    let mut begun = 0;
    let mut rest = sectors;
    for part in parts {
        let flown = part.end - (begun + gap_count(part.gap));
        let (own, others) = rest.split_at(flown as usize);
        push_part(&mut legs, part.gap, own);
        rest = others;
        begun = part.end;
    }
    legs
}

/// How many sectors a gap is.
fn gap_count(gap: Option<City>) -> u8
    ensures { result ≡ gap_count gap }
{
    match gap {
        None => 0,
        Some(_) => 1,
    }
}

/// Adds the sectors of a part.
fn push_part(legs: &mut Legs, gap: Option<City>, flown: &[LineSector])
    requires { length legs.old.items + gap_count gap + length flown.now ≤ MOST_SECTORS }
    ensures { legs.new.items ≡ legs.old.items ++ part_legs gap flown.now }
{
    push_gap(legs, gap);
    push_flown(legs, flown);
}

/// Adds the surface sector of a gap.
fn push_gap(legs: &mut Legs, gap: Option<City>)
    requires { length legs.old.items + gap_count gap ≤ MOST_SECTORS }
    ensures { legs.new.items ≡ legs.old.items ++ gap_legs gap }
{
    match gap {
        None => (),
        Some(city) => legs.push(Leg::Surface(city)),
    }
}

/// Adds flown sectors.
fn push_flown(legs: &mut Legs, flown: &[LineSector])
    requires { length legs.old.items + length flown.now ≤ MOST_SECTORS }
    ensures { legs.new.items ≡ legs.old.items ++ map Flown flown.now }
{
    for sector in flown {
        legs.push(Leg::Flown(*sector));
    }
}
