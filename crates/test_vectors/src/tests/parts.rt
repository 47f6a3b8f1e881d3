//! What lists of parts cost, or which rule they break first.

ghost use Rattle.std.specs.Prelude.{◌≡◌, ◌≤◌, Ok, length};
ghost use Rattle.fare_rules.specs.Lawful.{lawful_price};

mod first;
mod fourth;
mod rows;
mod second;
mod third;

use fare_codes::Nuc;
use fare_csv::read_edition;
use fare_tariff::Edition;
use fare_trip::{Trip, read_trip};
use fare_units::{
    Construction, Part, UnitKind, circle_minimum, earlier, lawful_price, price_is_of_unbroken,
    priced_back, unit_count, unit_sheet,
};
use first::FIRST;
use fourth::FOURTH;
use rows::ROWS;
use second::SECOND;
use std::alloc::Global;
use std::process::Abort;
use std::test::Fail;
use std::thread::Threads;
use third::THIRD;

/// What a list of parts comes to.
#[derive(Clone, Copy, PartialEq, Eq)]
enum Answer {
    /// Its price, in hundredths of a NUC.
    Price(u64),
    /// The rule that it breaks first, and where.
    Broken(u8, u32),
}

/// A unit's kind, sum, minimum and price.
#[derive(Clone, Copy)]
struct Sheet {
    kind: &'static str,
    sum: u64,
    minimum: Option<u64>,
    price: u64,
}

/// Parts as end, unit and fare, what they come to, and, where they are lawful, the sheet of each unit, whether each part is
/// priced back, and the circle minimum over all parts of some units.
#[derive(Clone, Copy)]
struct Listed {
    parts: &'static [(u8, u8, u32)],
    answer: Answer,
    sheets: &'static [Sheet],
    backs: &'static [bool],
    circles: &'static [(u8, Option<u64>)],
}

/// An edition, a trip and lists of parts.
#[derive(Clone, Copy)]
struct PartCase {
    edition: &'static str,
    trip: &'static str,
    lists: &'static [Listed],
}

/// The construction of some parts.
pub(super) fn construction(rt: &impl Abort, parts: &[(u8, u8, u32)]) -> Construction {
    let mut made = Construction::new();
    for (end, unit, fare) in parts {
        let part = Part {
            end: *end,
            unit: *unit,
            fare: *fare,
        };
        assert!(rt; made.try_push(part).is_ok());
    }
    made
}

fn name(kind: UnitKind) -> &'static str {
    match kind {
        UnitKind::OW => "OW",
        UnitKind::RT => "RT",
        UnitKind::CT => "CT",
        UnitKind::OJ => "OJ",
    }
}

/// Holds the sheets of a construction's units.
fn compare_sheets(
    rt: &impl Abort,
    edition: &Edition,
    trip: &Trip,
    c: &Construction,
    price: u64,
    sheets: &[Sheet],
)
    requires { lawful_price edition.now trip.now c.now ≡ Ok price }
{
    price_is_of_unbroken(edition, trip, c, price);
    let units = unit_count(c);
    assert_eq!(rt; sheets.len(), units);
    for unit in 1..units + 1 {
        let sheet = unit_sheet(edition, trip, c, unit as u8);
        let wanted = sheets[unit - 1];
        assert!(rt; name(sheet.kind) == wanted.kind, "unit {unit}");
        assert!(rt; sheet.sum == wanted.sum, "unit {unit}");
        assert!(rt; sheet.minimum == wanted.minimum, "unit {unit}");
        assert!(rt; sheet.price == wanted.price, "unit {unit}");
    }
}

/// Holds the directions of a construction's parts.
fn compare_directions(
    rt: &impl Abort,
    edition: &Edition,
    trip: &Trip,
    c: &Construction,
    price: u64,
    listed: &Listed,
)
    requires { lawful_price edition.now trip.now c.now ≡ Ok price }
{
    price_is_of_unbroken(edition, trip, c, price);
    let parts = c.parts();
    assert_eq!(rt; listed.backs.len(), parts.len());
    for k in 0..parts.len() {
        let unit = parts[k].unit as usize;
        assert!(rt; 1 <= unit);
        assert!(rt; unit <= listed.sheets.len());
        let half = listed.sheets[unit - 1].kind != "OW";
        let back = priced_back(edition, trip, parts, half, k + 1);
        assert!(rt; back == listed.backs[k], "part {}", k + 1);
    }
}

/// Holds the circle minima over all parts of units.
fn compare_minima(
    rt: &impl Abort,
    edition: &Edition,
    trip: &Trip,
    c: &Construction,
    price: u64,
    circles: &[(u8, Option<u64>)],
)
    requires { lawful_price edition.now trip.now c.now ≡ Ok price }
{
    price_is_of_unbroken(edition, trip, c, price);
    for (unit, wanted) in circles {
        let minimum = hundredths(circle_minimum(edition, trip, c.parts(), *unit));
        assert!(rt; minimum == *wanted, "unit {unit}");
    }
}

fn hundredths(found: Option<Nuc>) -> Option<u64> {
    match found {
        None => None,
        Some(found) => Some(found.hundredths()),
    }
}

/// Holds what a list of parts comes to; answers its price, where it has one.
fn compare(rt: &impl Abort, edition: &Edition, trip: &Trip, listed: &Listed) -> Option<u64> {
    let c = construction(rt, listed.parts);
    match lawful_price(edition, trip, &c) {
        Err(broken) => {
            assert!(rt;
                listed.answer == Answer::Broken(broken.rule, broken.place),
                "rule {}",
                broken.rule
            );
            None
        }
        Ok(price) => {
            assert!(rt; listed.answer == Answer::Price(price), "price {price}");
            compare_sheets(rt, edition, trip, &c, price, listed.sheets);
            compare_directions(rt, edition, trip, &c, price, listed);
            compare_minima(rt, edition, trip, &c, price, listed.circles);
            Some(price)
        }
    }
}

/// Holds every list of some cases.
fn compare_cases<R: Threads + Sync + Abort>(
    rt: &R,
    alloc: Global,
    cases: &[PartCase],
) -> Result<(), Fail> {
    for case in cases {
        let edition = read_edition(rt, alloc, case.edition.as_bytes())?;
        let trip = read_trip(alloc, case.trip.as_bytes())?;
        for listed in case.lists {
            compare(rt, &edition, &trip, listed);
        }
    }
    Ok(())
}

#[test]
fn the_parts_of_the_worked_tariffs_come_to_what_they_should(rt: HostRuntime) -> Result<(), Fail> {
    compare_cases(&rt, rt.alloc(), ROWS.as_slice())
}

#[test]
fn the_first_parts_come_to_what_they_do_elsewhere(rt: HostRuntime) -> Result<(), Fail> {
    compare_cases(&rt, rt.alloc(), FIRST.as_slice())
}

#[test]
fn the_second_parts_come_to_what_they_do_elsewhere(rt: HostRuntime) -> Result<(), Fail> {
    compare_cases(&rt, rt.alloc(), SECOND.as_slice())
}

#[test]
fn the_third_parts_come_to_what_they_do_elsewhere(rt: HostRuntime) -> Result<(), Fail> {
    compare_cases(&rt, rt.alloc(), THIRD.as_slice())
}

#[test]
fn the_fourth_parts_come_to_what_they_do_elsewhere(rt: HostRuntime) -> Result<(), Fail> {
    compare_cases(&rt, rt.alloc(), FOURTH.as_slice())
}

#[test]
fn the_cheaper_one_and_then_the_longer_first_part_is_earlier(rt: HostRuntime) {
    let whole = construction(&rt, &[(2, 1, 8)]);
    let broken = construction(&rt, &[(1, 1, 9), (2, 2, 10)]);
    assert!(rt; earlier(&whole, 40_000, &broken, 40_000));
    assert!(rt; !earlier(&broken, 40_000, &whole, 40_000));
    assert!(rt; earlier(&broken, 39_999, &whole, 40_000));
}
