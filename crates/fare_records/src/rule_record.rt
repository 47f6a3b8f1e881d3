use crate::names::Names;
use fare_codes::RuleId;
use std::marker::Model;

/// A rule: the terms of the fares that cite it, and the rules with which they may be combined.
#[derive(Drop)]
pub struct RuleRec {
    /// The rule's id; the key.
    pub id: RuleId,
    /// Whether a mileage surcharge above 0 is allowed.
    pub excess: bool,
    /// The greatest number of interior stopovers in a fare component, 0 to 16.
    pub stops: u32,
    /// The greatest number of interior transfers in a fare component, 0 to 16.
    pub transfers: u32,
    /// The least number of days from the sale day to the first day of travel, 0 to 999.
    pub advance: u32,
    /// The least stay in days, 0 to 999.
    pub min_stay: u32,
    /// The greatest stay in days, 0 to 999.
    pub max_stay: u32,
    /// The rules with which it may be combined in a pricing unit.
    pub units: Names,
    /// The rules with which it may be combined end on end.
    pub ends: Names,
}

impl Model for RuleRec {
    ghost use Rattle.fare_records.specs.Record.{RuleRecord, IsRule};

    ghost Value = { RuleRecord };

    ghost view = { λ r. record {
      id = r.id;
      stops = r.stops;
      transfers = r.transfers;
      advance = r.advance;
      min_stay = r.min_stay;
      max_stay = r.max_stay;
      excess = r.excess;
      units = r.units;
      ends = r.ends;
    } };

    ghost invariant = { λ r. IsRule (record {
      id = r.id;
      stops = r.stops;
      transfers = r.transfers;
      advance = r.advance;
      min_stay = r.min_stay;
      max_stay = r.max_stay;
      excess = r.excess;
      units = r.units;
      ends = r.ends;
    }) };
}
