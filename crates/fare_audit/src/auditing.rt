//! The five steps of an audit.

ghost use Rattle.std.specs.Prelude.{◌≡◌, ◌≤◌, IfOk, None, Ok, length};
ghost use Rattle.fare_rules.specs.Best.{IsBest};
ghost use Rattle.fare_rules.specs.Lawful.{lawful_price};
ghost use Rattle.fare_units.specs.Advance.{Advances};
ghost use Rattle.fare_calc.specs.LineOf.{line_of};
ghost use Rattle.fare_audit.specs.Filing.{bare_parts};
ghost use Rattle.fare_audit.specs.Verdict.{IsFiguresVerdict, IsPriceVerdict, IsRecordsVerdict, IsRulesVerdict};
ghost use Rattle.fare_audit.specs.Verdict.{IsVerdict};

use crate::differing::{difference, parts_advance};
use crate::figures::{first_figure, is_same_line};
use crate::filing::{construction_of, unrecorded};
use crate::verdict::Verdict;
use fare_calc::{Priced, Sheets, line_by};
use fare_line::Line;
use fare_ports::NoMemory;
use fare_tariff::Edition;
use fare_trip::Trip;
use fare_units::{Construction, MOST_PARTS, Quoter, lawful_price};
use std::alloc::Global;
use std::thread::Threads;

/// A line that is presented for a trip, and the edition by which it is audited.
#[derive(Clone, Copy)]
struct Presented<'a> {
    edition: &'a Edition,
    trip: &'a Trip,
    line: &'a Line,
}

/// The verdict on a line that is presented for a trip in an edition: the first that applies of another trip, a part
/// without a record, a broken rule, other figures, and lawful, where the quoter gives the least price.
pub fn audit<R: Threads + Sync, Q: Quoter>(
    rt: &R,
    alloc: Global,
    quoter: &Q,
    edition: &Edition,
    trip: &Trip,
    line: &Line,
) -> Result<Verdict, NoMemory>
    ensures { IfOk result (IsVerdict edition.now trip.now line.now) }
{
    match difference(trip, line) {
        Some(number) => Ok(Verdict::OtherTrip(number)),
        None => {
            parts_advance(trip, line);
            let presented = Presented {
                edition,
                trip,
                line,
            };
            audit_records(rt, alloc, quoter, &presented)
        }
    }
}

/// The verdict on a line of the trip.
fn audit_records<R: Threads + Sync, Q: Quoter>(
    rt: &R,
    alloc: Global,
    quoter: &Q,
    presented: &Presented,
) -> Result<Verdict, NoMemory>
    requires advances { Advances presented.now.trip.now (bare_parts presented.now.line.now) }
    requires few { length presented.now.line.now.parts ≤ MOST_PARTS }
    ensures { IfOk result (IsRecordsVerdict presented.now.edition.now presented.now.trip.now presented.now.line.now) }
{
    let Presented {
        edition,
        trip,
        line,
    } = *presented;
    match unrecorded(edition, trip, line) {
        Some(place) => Ok(Verdict::NoRecord(place)),
        None => {
            let parts = construction_of(edition, trip, line);
            audit_rules(rt, alloc, quoter, presented, &parts)
        }
    }
}

/// The verdict on a line that has a record for each part.
fn audit_rules<R: Threads + Sync, Q: Quoter>(
    rt: &R,
    alloc: Global,
    quoter: &Q,
    presented: &Presented,
    parts: &Construction,
) -> Result<Verdict, NoMemory>
    ensures { IfOk result
        (IsRulesVerdict presented.now.edition.now presented.now.trip.now presented.now.line.now parts.now) }
{
    match lawful_price(presented.edition, presented.trip, parts) {
        Err(broken) => Ok(Verdict::Broken(broken)),
        Ok(price) => audit_figures(rt, alloc, quoter, presented, parts, price),
    }
}

/// The verdict on a line of a lawful construction.
fn audit_figures<R: Threads + Sync, Q: Quoter>(
    rt: &R,
    alloc: Global,
    quoter: &Q,
    presented: &Presented,
    parts: &Construction,
    price: u64,
) -> Result<Verdict, NoMemory>
    requires { lawful_price presented.now.edition.now presented.now.trip.now parts.now ≡ Ok price }
    ensures { IfOk result
        (IsFiguresVerdict presented.now.edition.now presented.now.trip.now presented.now.line.now
        (line_of presented.now.edition.now presented.now.trip.now parts.now) price) }
{
    let Presented {
        edition,
        trip,
        line,
    } = *presented;
    let one = Priced {
        edition,
        trip,
        construction: parts,
        price,
    };
    let made = line_by(&Sheets::of(&one));
    if is_same_line(alloc, line, &made)? {
        audit_price(rt, alloc, quoter, presented, parts, price)
    } else {
        Ok(Verdict::Figures(first_figure(line.parts.as_slice(), made.parts.as_slice())))
    }
}

/// The verdict on a lawful construction: its price, and by how much that is above the least price.
fn audit_price<R: Threads + Sync, Q: Quoter>(
    rt: &R,
    alloc: Global,
    quoter: &Q,
    presented: &Presented,
    parts: &Construction,
    price: u64,
) -> Result<Verdict, NoMemory>
    requires { lawful_price presented.now.edition.now presented.now.trip.now parts.now ≡ Ok price }
    ensures { IfOk result (IsPriceVerdict presented.now.edition.now presented.now.trip.now price) }
{
    let (edition, trip) = (presented.edition, presented.trip);
    match quoter.quote(rt, alloc, edition, trip)? {
        // This construction is lawful, so there is a best one.
        None => Ok(Verdict::Lawful { price, over: 0 }),
        Some((best, least)) => Ok(verdict_beside(edition, trip, parts, price, &best, least)),
    }
}

/// The verdict on a lawful construction beside the best one.
fn verdict_beside(
    edition: &Edition,
    trip: &Trip,
    parts: &Construction,
    price: u64,
    best: &Construction,
    least: u64,
) -> Verdict
    requires lawful { lawful_price edition.now trip.now parts.now ≡ Ok price }
    requires best { IsBest edition.now trip.now best.now least }
    ensures { IsPriceVerdict edition.now trip.now price result }
{
    let over = price - least;
    Verdict::Lawful { price, over }
}
