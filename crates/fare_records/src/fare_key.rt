use fare_codes::{Cabin, Carrier, City, Indicator, Kind, RuleId};

/// The key of a fare without its season.
#[derive(Clone, Copy, Debug)]
pub struct FareKey {
    /// The city from which it is filed.
    pub from: City,
    /// The city to which it is filed.
    pub to: City,
    /// The global indicator for which it is filed.
    pub ind: Indicator,
    /// The carrier, or `YY` for every carrier.
    pub carrier: Carrier,
    /// The class.
    pub class: Cabin,
    /// One way or half round trip.
    pub kind: Kind,
    /// The rule; nothing is the free rule.
    pub rule: Option<RuleId>,
}
