use std::marker::Model;

/// An unordered pair of numbers below `MOST_SECTORS`, the lesser one first.
#[derive(Clone, Copy)]
pub(crate) struct Pair {
    pub(crate) first: u32,
    pub(crate) second: u32,
}

impl Model for Pair {
    ghost use Rattle.std.specs.Prelude.{◌<◌};
    ghost use Rattle.fare_codes.specs.declared.limits.TheConstants.{MOST_SECTORS};
    ghost use Rattle.fare_drill.specs.Miles.{NumberPair};

    ghost Value = { NumberPair };

    ghost view = { λ p. record { first = p.first; second = p.second } };

    ghost invariant = { λ p. (p.first < p.second) × (p.second < MOST_SECTORS) };

    ghost inverse = { λ p. record { first = p.first; second = p.second } };
}
