use fare_codes::{Cabin, Carrier, City, FareAmount, Indicator, Kind, RuleId, Season};
use std::marker::Model;

/// A filed fare.
#[derive(Clone, Copy, Debug)]
pub struct FareRec {
    /// The city from which it is filed.
    pub from: City,
    /// The city to which it is filed.
    pub to: City,
    /// The global indicator for which it is filed.
    pub ind: Indicator,
    /// The carrier, or `YY` for every carrier.
    pub carrier: Carrier,
    /// The class: the highest cabin that it covers.
    pub class: Cabin,
    /// One way or half round trip.
    pub kind: Kind,
    /// The rule; nothing is the free rule.
    pub rule: Option<RuleId>,
    /// The part of each year for which it is filed.
    pub season: Season,
    /// The amount in NUC, 0.00 to 9,999,999.99.
    pub amount: FareAmount,
}

impl Model for FareRec {
    ghost use Rattle.std.specs.Prelude.{◌<◌};
    ghost use Rattle.fare_codes.specs.declared.nuc.TheConstants.{FARE_LIMIT};
    ghost use Rattle.fare_records.specs.Record.{FareRecord};

    ghost Value = { FareRecord };

    ghost view = { λ r. record {
      from = r.from;
      to = r.to;
      ind = r.ind;
      carrier = r.carrier;
      class = r.class;
      kind = r.kind;
      rule = r.rule;
      season = r.season;
      amount = r.amount;
    } };

    ghost invariant = { λ r. r.amount < FARE_LIMIT };

    ghost inverse = { λ r. record {
      from = r.from;
      to = r.to;
      ind = r.ind;
      carrier = r.carrier;
      class = r.class;
      kind = r.kind;
      rule = r.rule;
      season = r.season;
      amount = r.amount;
    } };
}
