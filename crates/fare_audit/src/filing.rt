//! The FARE records of a line's parts, and the construction of all of them.

ghost use Rattle.std.specs.Prelude.{◌≡◌, ◌<◌, ◌≤◌, ◌+◌, ◌-◌, length, slice_get};
ghost use Rattle.std.specs.List.{list_any};
ghost use Rattle.std.specs.Option.{option_copied};
ghost use Rattle.fare_trip.specs.Itinerary.{count};
ghost use Rattle.fare_rules.specs.Construction.{end_of, unit_of};
ghost use Rattle.fare_units.specs.Advance.{Advances};
ghost use Rattle.fare_audit.specs.Filing.{bare_part, bare_parts, construction_of, is_one_way_in, is_round, is_turned};
ghost use Rattle.fare_audit.specs.Filing.{key_between, key_of, lacks_record, record_for, record_of, recorded_part};
ghost use Rattle.fare_audit.specs.Filing.{season_day, unrecorded};

use fare_codes::{Kind, MonthDay};
use fare_line::{Line, LinePart};
use fare_points::indicator;
use fare_rules::Part;
use fare_tariff::{Edition, FareKey};
use fare_trip::Trip;
use fare_units::{Construction, MOST_PARTS, part_at, priced_back, start_of};

/// The parts of a line by their ends and units alone.
fn bare_parts(line: &Line) -> Construction
    requires { length line.now.parts ≤ MOST_PARTS }
    ensures { result ≡ bare_parts line.now }
{
    let mut bare = Construction::new();
    for part in line.parts.as_slice() {
        let _fits = bare.try_push(bare_part(part));
    }
    bare
}

/// A part of a line by its end and its unit alone.
fn bare_part(part: &LinePart) -> Part
    ensures { result ≡ bare_part part.now }
{
    Part {
        end: part.end,
        unit: part.unit,
        fare: 0,
    }
}

/// Whether a part of a line belongs to a unit and has a one way fare.
fn is_one_way_in(unit: u8, part: &LinePart) -> bool
    ensures { result ≡ is_one_way_in unit part.now }
{
    part.unit == unit && part.kind.is(Kind::OW)
}

/// Whether a unit of a line has a one way fare.
fn holds_one_way(parts: &[LinePart], unit: u8) -> bool
    ensures { result ≡ list_any (is_one_way_in unit) parts.now }
{
    parts.iter().any(|part| is_one_way_in(unit, part))
}

/// Whether a unit of a line is one of half round trips.
fn is_round(parts: &[LinePart], unit: u8) -> bool
    ensures { result ≡ is_round parts.now unit }
{
    !holds_one_way(parts, unit)
}

/// Whether a part of a line is priced back.
fn is_turned(edition: &Edition, trip: &Trip, line: &Line, bare: &Construction, k: usize) -> bool
    requires bare { bare.now ≡ bare_parts line.now }
    requires advances { Advances trip.now (bare_parts line.now) }
    ensures { result ≡ is_turned edition.now trip.now line.now k }
{
    let parts = bare.parts();
    let hr = is_round(line.parts.as_slice(), part_at(parts, k).unit);
    priced_back(edition, trip, parts, hr, k)
}

/// The key of the fare of a part that runs between two points.
fn key_between(
    edition: &Edition,
    trip: &Trip,
    a: usize,
    b: usize,
    back: bool,
    part: &LinePart,
) -> FareKey
    requires rises { a < b }
    requires ends { b ≤ count trip.now }
    ensures { result ≡ key_between edition.now trip.now a b back part.now }
{
    let begin = trip.point(a);
    let end = trip.point(b);
    FareKey {
        from: if back { end } else { begin },
        to: if back { begin } else { end },
        ind: indicator(edition, trip, a, b),
        carrier: part.carrier,
        class: part.class,
        kind: part.kind,
        rule: part.rule,
    }
}

/// The key of the fare of the part at a place.
#[tactic(auto, unfolding(crate::specs::Filing::key_of))]
fn key_of(
    edition: &Edition,
    trip: &Trip,
    line: &Line,
    bare: &Construction,
    k: usize,
    part: &LinePart,
) -> FareKey
    requires bare { bare.now ≡ bare_parts line.now }
    requires advances { Advances trip.now (bare_parts line.now) }
    requires from_one { 1 ≤ k }
    requires to_last { k ≤ length line.now.parts }
    ensures { result ≡ key_of edition.now trip.now line.now k part.now }
{
    let parts = bare.parts();
    let a = start_of(trip, parts, k);
    let b = part_at(parts, k).end as usize;
    let back = is_turned(edition, trip, line, bare, k);
    key_between(edition, trip, a, b, back, part)
}

/// The day of the first sector of the part at a place, without its year.
fn season_day(trip: &Trip, line: &Line, bare: &Construction, k: usize) -> MonthDay
    requires bare { bare.now ≡ bare_parts line.now }
    requires advances { Advances trip.now (bare_parts line.now) }
    requires from_one { 1 ≤ k }
    requires to_last { k ≤ length line.now.parts }
    ensures { result ≡ season_day trip.now line.now k }
{
    let a = start_of(trip, bare.parts(), k);
    trip.sector(a + 1).day.month_day()
}

/// The record number of the FARE of a part that stands at a place.
fn record_for(
    edition: &Edition,
    trip: &Trip,
    line: &Line,
    bare: &Construction,
    k: usize,
    part: &LinePart,
) -> Option<u32>
    requires bare { bare.now ≡ bare_parts line.now }
    requires advances { Advances trip.now (bare_parts line.now) }
    requires from_one { 1 ≤ k }
    requires to_last { k ≤ length line.now.parts }
    ensures { result ≡ record_for edition.now trip.now line.now k part.now }
{
    let key = key_of(edition, trip, line, bare, k, part);
    edition.fare(&key, season_day(trip, line, bare, k))
}

/// The part of a line at a place, from 1.
fn line_part_at(line: &Line, k: usize) -> Option<&LinePart>
    requires { 1 ≤ k }
    ensures { option_copied result ≡ slice_get line.now.parts (k - 1) }
{
    line.parts.as_slice().get(k - 1)
}

/// The record number of the FARE of the part at a place, from 1.
#[tactic(auto, unfolding(crate::specs::Filing::record_of))]
fn record_of(
    edition: &Edition,
    trip: &Trip,
    line: &Line,
    bare: &Construction,
    k: usize,
) -> Option<u32>
    requires bare { bare.now ≡ bare_parts line.now }
    requires advances { Advances trip.now (bare_parts line.now) }
    requires from_one { 1 ≤ k }
    requires to_last { k ≤ length line.now.parts }
    ensures { result ≡ record_of edition.now trip.now line.now k }
{
    match line_part_at(line, k) {
        None => None,
        Some(part) => record_for(edition, trip, line, bare, k, part),
    }
}

/// Whether no record is the FARE of the part at a place.
fn lacks_record(edition: &Edition, trip: &Trip, line: &Line, bare: &Construction, k: usize) -> bool
    requires bare { bare.now ≡ bare_parts line.now }
    requires advances { Advances trip.now (bare_parts line.now) }
    requires from_one { 1 ≤ k }
    requires to_last { k ≤ length line.now.parts }
    ensures { result ≡ lacks_record edition.now trip.now line.now k }
{
    record_of(edition, trip, line, bare, k).is_none()
}

/// The first part of a line without a FARE record.
#[tactic(auto, using(fare_rules::proofs::NumberLemmas::find_next, fare_rules::proofs::NumberLemmas::find_done), unfolding(crate::specs::Filing::unrecorded))]
pub(crate) fn unrecorded(edition: &Edition, trip: &Trip, line: &Line) -> Option<u32>
    requires advances { Advances trip.now (bare_parts line.now) }
    requires few { length line.now.parts ≤ MOST_PARTS }
    ensures { result ≡ unrecorded edition.now trip.now line.now }
{
    let bare = bare_parts(line);
    for i in 0..line.parts.len() {
        if lacks_record(edition, trip, line, &bare, i + 1) {
            return Some(i as u32 + 1);
        }
    }
    None
}

/// A part with the end and the unit of the line and the number of its FARE record, 0 where it has none.
fn recorded_part(edition: &Edition, trip: &Trip, line: &Line, bare: &Construction, k: usize) -> Part
    requires bare { bare.now ≡ bare_parts line.now }
    requires advances { Advances trip.now (bare_parts line.now) }
    requires from_one { 1 ≤ k }
    requires to_last { k ≤ length line.now.parts }
    ensures { result ≡ recorded_part edition.now trip.now line.now k }
{
    let part = part_at(bare.parts(), k);
    Part {
        end: part.end,
        unit: part.unit,
        fare: record_of(edition, trip, line, bare, k).unwrap_or(0),
    }
}

/// The construction that a line determines.
#[tactic(auto, using(crate::proofs::FilingLemmas::recorded_none), unfolding(crate::specs::Filing::construction_of))]
pub(crate) fn construction_of(edition: &Edition, trip: &Trip, line: &Line) -> Construction
    requires advances { Advances trip.now (bare_parts line.now) }
    requires few { length line.now.parts ≤ MOST_PARTS }
    ensures { result ≡ construction_of edition.now trip.now line.now }
{
    let bare = bare_parts(line);
    let mut parts = Construction::new();
    for i in 0..line.parts.len() {
        let _fits = parts.try_push(recorded_part(edition, trip, line, &bare, i + 1));
    }
    parts
}
