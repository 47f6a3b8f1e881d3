//! The steps of the mileage surcharge.

ghost use Rattle.std.specs.Prelude.{◌≡◌, ◌≤◌, IfSome};
ghost use Rattle.fare_rules.specs.Mileage.{is_covered_by, surcharge, surcharge_of, compared_miles, miles_from};

use fare_codes::MOST_SURCHARGE;
use fare_rules::{Mileage, Miles};

/// Whether a step of the surcharge covers some miles above the permitted ones.
fn is_covered_by(net: u32, mpm: u32, step: u32) -> bool
    requires { step ≤ MOST_SURCHARGE }
    ensures { result ≡ is_covered_by net mpm step }
{
    100 * net as u64 <= mpm as u64 * (100 + step as u64)
}

/// The surcharge for miles, in hundredths of the fare: the least step that covers them; nothing where none does.
#[tactic(auto, using(crate::proofs::Search::find_more, crate::proofs::Search::find_all), unfolding(fare_rules::specs::Mileage::surcharge))]
fn surcharge(net: u32, mpm: u32) -> Option<u32>
    ensures value { result ≡ surcharge net mpm }
    ensures bound { IfSome result (λ step. step ≤ MOST_SURCHARGE) }
{
    for step in [0, 5, 10, 15, 20, MOST_SURCHARGE] {
        if is_covered_by(net, mpm, step) {
            return Some(step);
        }
    }
    None
}

/// The miles of a sum and an allowance, beside those permitted; the net is never below 0.
fn miles_from(sum: u32, allowance: u32, mpm: u32) -> Miles
    ensures { result ≡ miles_from sum allowance mpm }
{
    Miles {
        sum,
        allowance,
        net: sum.saturating_sub(allowance),
        mpm,
    }
}

/// What the miles of a sum and an allowance ask of a fare, where so many are permitted.
#[tactic(auto, unfolding(fare_rules::specs::Mileage::compared_miles))]
pub(crate) fn compared(sum: u32, allowance: u32, mpm: u32) -> Mileage
    ensures value { result ≡ compared_miles (miles_from sum allowance mpm) }
    ensures bound { IfSome (surcharge_of result) (λ step. step ≤ MOST_SURCHARGE) }
{
    let miles = miles_from(sum, allowance, mpm);
    match surcharge(miles.net, miles.mpm) {
        None => Mileage::Over(miles),
        Some(0) => Mileage::Within(miles),
        Some(step) => Mileage::Excess(step, miles),
    }
}
