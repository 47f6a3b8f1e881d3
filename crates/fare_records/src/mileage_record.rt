use fare_codes::{City, Indicator};
use std::marker::Model;

/// A maximum permitted mileage between two cities, in either direction.
#[derive(Clone, Copy, Debug)]
pub struct MileRec {
    /// One city, as it was written.
    pub from: City,
    /// The other city.
    pub to: City,
    /// The global indicator for which it is filed.
    pub ind: Indicator,
    /// The miles, 0 to 99,999; an edition has none of 0.
    pub miles: u32,
}

impl Model for MileRec {
    ghost use Rattle.std.specs.Prelude.{◌≤◌};
    ghost use Rattle.fare_records.specs.declared.limits.TheConstants.{MOST_MILES};
    ghost use Rattle.fare_records.specs.Record.{MileageRecord};

    ghost Value = { MileageRecord };

    ghost view = { λ r. record { from = r.from; to = r.to; ind = r.ind; miles = r.miles } };

    ghost invariant = { λ r. r.miles ≤ MOST_MILES };

    ghost inverse = { λ r. record { from = r.from; to = r.to; ind = r.ind; miles = r.miles } };
}
