//! Laws of the answers: each is read back from its text as its value. What they ask of counts holds of each value of
//! code, by the types of its numbers; they walk over the parts, the units and the editions to see it, and change
//! nothing.

ghost use Rattle.std.specs.Prelude.{◌≡◌, ◌<◌, ℕ, List, None, Some, All, length};
ghost use Rattle.serde_json.specs.Data.{Data};
ghost use Rattle.fare_trip.specs.Itinerary.{Itinerary};
ghost use Rattle.fare_rules.specs.FirstK.{Priced};
ghost use Rattle.fare_line.specs.Line.{CalculationLine};
ghost use Rattle.fare_json.specs.AuditData.{audit_data};
ghost use Rattle.fare_json.specs.BatchData.{batch_data};
ghost use Rattle.fare_json.specs.BestData.{first_data};
ghost use Rattle.fare_json.specs.Counts.{AreEditionCounts, AreMileageCounts, AreMilesCounts, ArePartCounts};
ghost use Rattle.fare_json.specs.Counts.{AreVerdictCounts, IsCount};
ghost use Rattle.fare_json.specs.FaultData.{refusal_data};
ghost use Rattle.fare_json.specs.ListData.{list_data};
ghost use Rattle.fare_json.specs.QuotationData.{quotation_data};
ghost use Rattle.fare_json.specs.ReadBack.{IsReadable, IsReadBack};

use fare_audit::Verdict;
use fare_book::Book;
use fare_calc::{NumberedUnit, PartSheet, Sheets};
use fare_mileage::{Mileage, Miles};
use fare_rules::Broken;
use fare_tariff::Edition;

/// The counts of an edition are those of its types.
fn edition_is_counted(edition: &Edition)
    ensures { AreEditionCounts edition.now }
{
    let _number = edition.number();
    let _count = edition.records().len();
}

/// The counts of miles are those of their types.
fn miles_are_counted(miles: &Miles)
    ensures { AreMilesCounts miles.now }
{
    let _sum = miles.sum;
    let _allowance = miles.allowance;
    let _net = miles.net;
    let _mpm = miles.mpm;
}

/// A number of 32 bits is a count.
fn is_counted(number: u32)
    ensures { IsCount number }
{
    let _ = number;
}

/// The counts of a mileage are those of its types.
fn mileage_is_counted(mileage: &Mileage)
    ensures { AreMileageCounts mileage.now }
{
    match mileage {
        Mileage::Within(miles) => miles_are_counted(miles),
        Mileage::Excess(step, miles) => {
            is_counted(*step);
            miles_are_counted(miles);
        }
        _ => {}
    }
}

/// The counts of a part are those of its types.
fn part_is_counted(one: &PartSheet)
    ensures { ArePartCounts one.now }
{
    let _end = one.end;
    let _unit = one.unit;
    let _number = one.number;
    mileage_is_counted(&one.mileage);
}

/// The number of a unit is one of its type.
fn unit_is_counted(one: &NumberedUnit)
    ensures { IsCount one.now.number }
{
    let _number = one.number;
}

/// The counts of parts are those of their types.
fn parts_are_counted(parts: &[PartSheet])
    ensures { All ArePartCounts parts.now }
{
    for one in parts {
        part_is_counted(one);
    }
}

/// The numbers of units are those of their types.
fn units_are_counted(units: &[NumberedUnit])
    ensures { All (λ unit. IsCount unit.number) units.now }
{
    for one in units {
        unit_is_counted(one);
    }
}

/// The quotation of a lawful construction is read back from its text as its value.
#[tactic(auto, using(crate::proofs::ReadQuotation::lawful_readable, crate::proofs::ReadLemmas::is_read_back_within))]
pub fn quotation_is_read_back(sheets: &Sheets<'_>)
    ensures readable { IsReadable 5 (quotation_data sheets.now.edition sheets.now.trip (Some sheets.now.parts)) }
    ensures back { IsReadBack (quotation_data sheets.now.edition sheets.now.trip (Some sheets.now.parts)) }
{
    edition_is_counted(sheets.edition());
    parts_are_counted(sheets.parts());
    units_are_counted(sheets.units());
}

/// A quotation without a fare is read back from its text as its value.
#[tactic(auto, using(crate::proofs::ReadQuotation::none_readable, crate::proofs::ReadLemmas::is_read_back_within))]
pub fn no_fare_is_read_back(edition: &Edition)
    ensures readable { (trip : Itinerary) → IsReadable 5 (quotation_data edition.now trip None) }
    ensures back { (trip : Itinerary) → IsReadBack (quotation_data edition.now trip None) }
{
    edition_is_counted(edition);
}

/// The first constructions are read back from their text as their value.
#[tactic(auto, using(crate::proofs::ReadLemmas::edition_readable, crate::proofs::ReadLemmas::first_reads_back))]
pub fn first_are_read_back(edition: &Edition)
    ensures { (trip : Itinerary) (first : List Priced) → IsReadBack (first_data edition.now trip first) }
{
    edition_is_counted(edition);
}

/// Each edition's counts are those of its types.
fn editions_are_counted(editions: &[Edition])
    ensures { All AreEditionCounts editions.now }
{
    for one in editions {
        edition_is_counted(one);
    }
}

/// The list of a book is read back from its text as its value.
#[tactic(auto, using(crate::proofs::ReadLemmas::list_reads_back_counted))]
pub fn list_is_read_back(book: &Book)
    ensures { IsReadBack (list_data book.now.editions) }
{
    editions_are_counted(book.editions());
}

/// The counts of a verdict are those of its types.
fn verdict_is_counted(verdict: &Verdict)
    ensures { AreVerdictCounts verdict.now }
{
    match *verdict {
        Verdict::OtherTrip(sector) => is_counted(sector),
        Verdict::NoRecord(place) => is_counted(place),
        Verdict::Broken(broken) => broken_is_counted(&broken),
        Verdict::Figures(place) => is_counted(place),
        Verdict::Lawful { .. } => {}
    }
}

/// The counts of a broken rule are those of its types.
fn broken_is_counted(broken: &Broken)
    ensures { IsCount broken.now.place × IsCount broken.now.rule }
{
    let _place = broken.place;
    let _rule = broken.rule;
}

/// An audit is read back from its text as its value.
#[tactic(auto, using(crate::proofs::ReadLemmas::audit_reads_back))]
pub fn audit_is_read_back(edition: &Edition, verdict: &Verdict)
    ensures { (line : CalculationLine) → IsReadBack (audit_data edition.now line verdict.now) }
{
    edition_is_counted(edition);
    verdict_is_counted(verdict);
}

/// The JSON answer of a refusal is read back from its text as its value.
#[tactic(auto, using(crate::proofs::ReadLemmas::refusal_readable, crate::proofs::ReadLemmas::is_read_back_within))]
pub fn refusal_is_read_back()
    ensures readable { (text words : List ℕ) → IsReadable 5 (refusal_data text words) }
    ensures back { (text words : List ℕ) → IsReadBack (refusal_data text words) }
{}

/// A batch of answers that can be read back, with statuses of 64 bits, is read back from its text as its value.
#[tactic(auto, using(crate::proofs::ReadLemmas::batch_reads_back))]
pub fn batch_is_read_back()
    ensures { (items : List (Data × ℕ)) → All (λ item. IsReadable 5 item.0 × IsCount item.1) items
        → IsReadBack (batch_data items) }
{}
