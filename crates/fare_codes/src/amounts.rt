//! The arithmetic of amounts: the greater of two, the surcharge, and the conversion to local amounts.

ghost use Rattle.std.specs.Prelude.{ℕ, IfSome, ◌≡◌, ◌*◌, ◌/◌, ◌^◌, ◌<◌, ◌≤◌, ◌+◌};
ghost use Rattle.fare_codes.specs.Amounts.{greater, surcharged, tenths, rounded, converted, IsLeastMultiple};

use crate::decimals::RATE_LIMIT;
use crate::limits::{MOST_DECIMALS, MOST_SURCHARGE, MOST_UNIT};
use crate::mode::Mode;
use crate::nuc::{FARE_LIMIT, Nuc};

/// The greater of two amounts, of which either may be missing.
pub fn greater(a: Option<Nuc>, b: Option<Nuc>) -> Option<Nuc>
    ensures value { result ≡ greater a b }
    ensures below { (limit : ℕ) →
        IfSome a (λ x. x < limit) → IfSome b (λ x. x < limit) → IfSome result (λ x. x < limit) }
{
    match (a, b) {
        (None, b) => b,
        (Some(a), None) => Some(a),
        (Some(a), Some(b)) => Some(a.max(b)),
    }
}

/// The base with a surcharge of `s` in the hundred, rounded down to a hundredth of a NUC.
#[tactic(auto, unfolding(crate::specs::Amounts::surcharged))]
pub fn surcharged(base: Nuc, s: u32) -> Nuc
    requires base { base < FARE_LIMIT }
    requires surcharge { s ≤ MOST_SURCHARGE }
    ensures value { result ≡ surcharged base s }
    ensures bound { result ≤ base * (100 + MOST_SURCHARGE) / 100 }
{
    Nuc::new(base.hundredths() * (100 + s as u64) / 100)
}

/// The local amount of `nuc` hundredths at a rate of `roe` millionths, rounded to a multiple of `unit`; it and the
/// unit are counted in 10 ^ -`decimals`.
#[tactic(auto, using(crate::proofs::AmountLemmas::up_is_least), unfolding(crate::specs::Amounts::converted))]
pub fn convert(nuc: u64, roe: u64, decimals: u8, unit: u32, mode: Mode) -> u128
    requires nuc { nuc ≤ 4 * 10 ^ 10 }
    requires roe { roe < RATE_LIMIT }
    requires decimals { decimals ≤ MOST_DECIMALS }
    requires some { 1 ≤ unit }
    requires unit { unit ≤ MOST_UNIT }
    ensures value { result ≡ converted nuc roe decimals unit mode }
    ensures up { mode ≡ Mode.Up → IsLeastMultiple (10 * unit) (tenths nuc roe decimals) (10 * result) }
{
    rounded(mode, tenths(nuc, roe, decimals), unit) / 10
}

/// The product of hundredths and millionths, in tenths of 10 ^ -`decimals`.
#[tactic(auto, using(crate::proofs::DecimalLemmas::power_positive), unfolding(crate::specs::Amounts::tenths))]
fn tenths(nuc: u64, roe: u64, decimals: u8) -> u128
    requires nuc { nuc ≤ 4 * 10 ^ 10 }
    requires roe { roe < RATE_LIMIT }
    requires decimals { decimals ≤ MOST_DECIMALS }
    ensures value { result ≡ tenths nuc roe decimals }
    ensures bound { result < 10 ^ 24 }
{
    nuc as u128 * roe as u128 / 10u128.pow(7 - decimals as u32)
}

/// The multiple of the unit, both in tenths, to which the mode rounds.
fn rounded(mode: Mode, x: u128, unit: u32) -> u128
    requires x { x < 10 ^ 24 }
    requires some { 1 ≤ unit }
    requires unit { unit ≤ MOST_UNIT }
    ensures { result ≡ rounded mode x unit }
{
    let multiple = 10 * unit as u128;
    let more = match mode {
        Mode::Up => multiple - 1,
        Mode::Nearest => 5 * unit as u128,
    };
    (x + more) / multiple * multiple
}
