//! Numbers that a tariff text wants above zero.

ghost use Rattle.std.specs.Prelude.{◌≡◌, ◌<◌, ◌≤◌, IfSome};
ghost use Rattle.fare_codes.specs.Numbers.{read_number, read_rate};
ghost use Rattle.fare_csv.specs.Numbers.{above_zero};

use fare_codes::{LAST_EDITION, MOST_UNIT, RATE_LIMIT, read_number, read_rate};

/// The rate of exchange in millionths that the bytes spell, above zero.
#[tactic(auto, unfolding(crate::specs::Numbers::above_zero))]
pub(crate) fn read_roe(bytes: &[u8]) -> Option<u64>
    ensures value { result ≡ above_zero (read_rate bytes.now) }
    ensures range { IfSome result (λ rate. (0 < rate) × (rate < RATE_LIMIT)) }
{
    let rate = read_rate(bytes)?;
    if rate > 0 { Some(rate) } else { None }
}

/// The rounding unit that the bytes spell, 1 to 10,000.
#[tactic(auto, unfolding(crate::specs::Numbers::above_zero))]
pub(crate) fn read_unit(bytes: &[u8]) -> Option<u32>
    ensures value { result ≡ above_zero (read_number MOST_UNIT bytes.now) }
    ensures range { IfSome result (λ unit. (0 < unit) × (unit ≤ MOST_UNIT)) }
{
    let unit = read_number(bytes, MOST_UNIT)?;
    if unit > 0 { Some(unit) } else { None }
}

/// The number of an edition that the bytes spell, 1 to 99,999.
#[tactic(auto, unfolding(crate::specs::Numbers::above_zero))]
pub(crate) fn read_edition_number(bytes: &[u8]) -> Option<u32>
    ensures value { result ≡ above_zero (read_number LAST_EDITION bytes.now) }
    ensures range { IfSome result (λ number. (0 < number) × (number ≤ LAST_EDITION)) }
{
    let number = read_number(bytes, LAST_EDITION)?;
    if number > 0 { Some(number) } else { None }
}
