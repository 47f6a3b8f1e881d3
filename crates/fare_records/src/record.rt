use crate::allowance_record::EmaRec;
use crate::city_record::CityRec;
use crate::currency_record::CurRec;
use crate::fare_record::FareRec;
use crate::filed_rule::FiledRule;
use crate::mileage_record::MileRec;
use crate::pair_record::PairRec;

/// A record of a tariff, between its HEAD and its END.
#[derive(Drop)]
pub enum Record {
    /// A city.
    City(CityRec),
    /// A country's currency.
    Cur(CurRec),
    /// A rule.
    Rule(FiledRule),
    /// A fare.
    Fare(FareRec),
    /// A maximum permitted mileage.
    Mpm(MileRec),
    /// A ticketed point mileage.
    Tpm(PairRec),
    /// An extra mileage allowance.
    Ema(EmaRec),
}
