//! The fares of a drill, each with the draw of its number.

ghost use Rattle.std.specs.Prelude.{◌≡◌, ◌<◌, ◌++◌, OnOk, map};
ghost use Rattle.std.specs.List.{enumerate_from};
ghost use Rattle.fare_drill.specs.Fares.{amount_of, base_of, drawn_fare, fare_of};

use crate::cities::city;
use crate::draws::{next_state, upper_half};
use crate::way::Way;
use fare_codes::{Cabin, FareAmount, Indicator, Kind, Nuc, Season};
use fare_ports::NoMemory;
use fare_tariff::{FareRec, Record};

/// Appends the fares of ways, each with the draw of its number.
#[tactic(auto, unfolding(crate::specs::Draws::state, crate::specs::Draws::draw))]
pub(crate) fn push_fares(records: &mut Vec<Record>, seed: u32, ways: &[Way]) -> Result<(), NoMemory>
    ensures { OnOk result
        (records.new.items ≡ records.old.items ++ map (drawn_fare seed) (enumerate_from 0 ways.now)) }
{
    let mut x = seed;
    for way in ways {
        x = next_state(x);
        records.push(fare_of(*way, upper_half(x)))?;
    }
    Ok(())
}

/// The fare of a way and its draw.
fn fare_of(way: Way, drawn: u32) -> Record
    ensures { result ≡ fare_of way drawn }
{
    Record::Fare(FareRec {
        from: city(way.from),
        to: city(way.to),
        ind: Indicator::EH,
        carrier: way.carrier,
        class: Cabin::Y,
        kind: way.kind,
        rule: way.rule,
        season: Season::whole_year(),
        amount: FareAmount::of(Nuc::new(amount_of(way, drawn))),
    })
}

/// The amount of a way's fare, in hundredths: that of its kind, 3,000 for each step of distance, and a part of its
/// draw.
fn amount_of(way: Way, drawn: u32) -> u64
    ensures amount { result ≡ amount_of way drawn }
    ensures small { result < 100_000 }
{
    let distance = way.from.abs_diff(way.to);
    u64::from(base_of(way.kind) + 3_000 * distance + drawn % 2_000)
}

/// The amount, in hundredths, on which the amounts of a kind are built.
fn base_of(kind: Kind) -> u32
    ensures amount { result ≡ base_of kind }
    ensures small { result < 25_000 }
{
    match kind {
        Kind::OW => 20_000,
        Kind::HR => 22_500,
    }
}
