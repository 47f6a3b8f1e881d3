use fare_codes::{Carrier, Kind, RuleId};
use std::marker::Model;

/// A way to fly between two of at most `MOST_SECTORS` cities, by their numbers, for which a drill files a fare.
#[derive(Clone, Copy)]
pub(crate) struct Way {
    pub(crate) from: u32,
    pub(crate) to: u32,
    pub(crate) kind: Kind,
    pub(crate) carrier: Carrier,
    pub(crate) rule: Option<RuleId>,
}

impl Model for Way {
    ghost use Rattle.std.specs.Prelude.{◌<◌};
    ghost use Rattle.fare_codes.specs.declared.limits.TheConstants.{MOST_SECTORS};
    ghost use Rattle.fare_drill.specs.Fares.{FareWay};

    ghost Value = { FareWay };

    ghost view = { λ w. record { from = w.from; to = w.to; kind = w.kind; carrier = w.carrier; rule = w.rule } };

    ghost invariant = { λ w. (w.from < MOST_SECTORS) × (w.to < MOST_SECTORS) };

    ghost inverse = { λ w. record { from = w.from; to = w.to; kind = w.kind; carrier = w.carrier; rule = w.rule } };
}
