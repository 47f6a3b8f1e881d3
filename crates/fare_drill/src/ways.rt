//! The ways to fly between the cities of a drill, in the order of their fares.

ghost use Rattle.std.specs.Prelude.{◌≡◌, ◌<◌, ◌≤◌, ◌++◌, OnOk, IfOk, map};
ghost use Rattle.std.specs.List.{flat_map};
ghost use Rattle.fare_codes.specs.declared.limits.TheConstants.{MOST_SECTORS};
ghost use Rattle.fare_drill.specs.Fares.{carriers, rules, ways_between, ways_to, ways_from, ways};

use crate::way::Way;
use fare_codes::{Carrier, Kind, RuleId};
use fare_ports::NoMemory;
use std::alloc::Global;

/// The ways from each of so many cities to each other one.
pub(crate) fn ways(alloc: Global, count: u32) -> Result<Vec<Way>, NoMemory>
    requires { count ≤ MOST_SECTORS }
    ensures { IfOk result (λ all. all.items ≡ ways count) }
{
    let mut ways = Vec::with_capacity(alloc, 128 * count as usize)?;
    for from in 0..count {
        push_from(&mut ways, count, from)?;
    }
    Ok(ways)
}

/// Appends the ways from a city to each other one.
fn push_from(ways: &mut Vec<Way>, count: u32, from: u32) -> Result<(), NoMemory>
    requires all { count ≤ MOST_SECTORS }
    requires one { from < count }
    ensures { OnOk result (ways.new.items ≡ ways.old.items ++ ways_from count from) }
{
    for to in 0..count {
        push_to(ways, from, to)?;
    }
    Ok(())
}

/// Appends the ways from a city to another, and none from a city to itself.
fn push_to(ways: &mut Vec<Way>, from: u32, to: u32) -> Result<(), NoMemory>
    requires one { from < MOST_SECTORS }
    requires other { to < MOST_SECTORS }
    ensures { OnOk result (ways.new.items ≡ ways.old.items ++ ways_to from to) }
{
    if from == to {
        return Ok(());
    }
    push_kind(ways, from, to, Kind::OW)?;
    push_kind(ways, from, to, Kind::HR)
}

/// Appends the ways of a kind from a city to another.
fn push_kind(ways: &mut Vec<Way>, from: u32, to: u32, kind: Kind) -> Result<(), NoMemory>
    requires one { from < MOST_SECTORS }
    requires other { to < MOST_SECTORS }
    ensures { OnOk result (ways.new.items ≡ ways.old.items ++ flat_map (λ carrier. map (λ rule.
        record { from = from; to = to; kind = kind; carrier = carrier; rule = rule }) rules) carriers) }
{
    push_carrier(ways, from, to, kind, Carrier::read(b"YY").unwrap())?;
    push_carrier(ways, from, to, kind, Carrier::read(b"Q1").unwrap())
}

/// Appends the ways of a kind and a carrier from a city to another.
fn push_carrier(
    ways: &mut Vec<Way>,
    from: u32,
    to: u32,
    kind: Kind,
    carrier: Carrier,
) -> Result<(), NoMemory>
    requires one { from < MOST_SECTORS }
    requires other { to < MOST_SECTORS }
    ensures { OnOk result (ways.new.items ≡ ways.old.items ++ map (λ rule.
        record { from = from; to = to; kind = kind; carrier = carrier; rule = rule }) rules) }
{
    ways.push(Way {
        from,
        to,
        kind,
        carrier,
        rule: None,
    })?;
    ways.push(Way {
        from,
        to,
        kind,
        carrier,
        rule: RuleId::read(b"A"),
    })?;
    Ok(())
}
