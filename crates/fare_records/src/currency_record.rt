use fare_codes::{Country, Currency, Mode};
use std::marker::Model;

/// The currency of a country, with its rate of exchange and its rounding unit. The rate stands last, so that nothing is
/// left free between the fields: a record takes the room of the greatest.
#[derive(Clone, Copy, Debug)]
pub struct CurRec {
    /// The country; the key.
    pub country: Country,
    /// Its currency.
    pub currency: Currency,
    /// The decimals of a local amount, 0 to 2.
    pub decimals: u8,
    /// How an amount is rounded to the unit.
    pub mode: Mode,
    /// The rounding unit, 1 to 10,000, counted in the last decimal.
    pub unit: u32,
    /// The rate of exchange in millionths of the currency for one NUC, 1 to 10^13 - 1.
    pub roe: u64,
}

impl Model for CurRec {
    ghost use Rattle.fare_records.specs.Record.{CurrencyRecord, IsCurrency};

    ghost Value = { CurrencyRecord };

    ghost view = { λ r. record {
      country = r.country;
      currency = r.currency;
      roe = r.roe;
      decimals = r.decimals;
      unit = r.unit;
      mode = r.mode;
    } };

    ghost invariant = { λ r. IsCurrency r.roe r.decimals r.unit };

    ghost inverse = { λ r. record {
      country = r.country;
      currency = r.currency;
      roe = r.roe;
      decimals = r.decimals;
      unit = r.unit;
      mode = r.mode;
    } };
}
