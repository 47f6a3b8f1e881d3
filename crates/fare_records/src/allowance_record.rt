use fare_codes::{City, Indicator};
use std::marker::Model;

/// An extra mileage allowance between two cities, in either direction.
#[derive(Clone, Copy, Debug)]
pub struct EmaRec {
    /// One city, as it was written.
    pub from: City,
    /// The other city.
    pub to: City,
    /// The global indicator for which it is filed.
    pub ind: Indicator,
    /// The city by way of which it is allowed; nothing for every way.
    pub via: Option<City>,
    /// The miles, 0 to 99,999; an edition has none of 0.
    pub miles: u32,
}

impl Model for EmaRec {
    ghost use Rattle.std.specs.Prelude.{◌≤◌};
    ghost use Rattle.fare_records.specs.declared.limits.TheConstants.{MOST_MILES};
    ghost use Rattle.fare_records.specs.Record.{AllowanceRecord};

    ghost Value = { AllowanceRecord };

    ghost view = { λ r. record { from = r.from; to = r.to; ind = r.ind; via = r.via; miles = r.miles } };

    ghost invariant = { λ r. r.miles ≤ MOST_MILES };

    ghost inverse = { λ r. record { from = r.from; to = r.to; ind = r.ind; via = r.via; miles = r.miles } };
}
