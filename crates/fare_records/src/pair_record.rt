use fare_codes::City;
use std::marker::Model;

/// A ticketed point mileage between two cities, in either direction.
#[derive(Clone, Copy, Debug)]
pub struct PairRec {
    /// One city, as it was written.
    pub from: City,
    /// The other city.
    pub to: City,
    /// The miles, 0 to 99,999; an edition has none of 0.
    pub miles: u32,
}

impl Model for PairRec {
    ghost use Rattle.std.specs.Prelude.{◌≤◌};
    ghost use Rattle.fare_records.specs.declared.limits.TheConstants.{MOST_MILES};
    ghost use Rattle.fare_records.specs.Record.{PairRecord};

    ghost Value = { PairRecord };

    ghost view = { λ r. record { from = r.from; to = r.to; miles = r.miles } };

    ghost invariant = { λ r. r.miles ≤ MOST_MILES };

    ghost inverse = { λ r. record { from = r.from; to = r.to; miles = r.miles } };
}
