//! The price of the best construction beside that of an alternative.

ghost use Rattle.std.specs.Prelude.{◌≡◌, ◌<◌, IfSome, option_map};
ghost use Rattle.fare_rules.specs.declared.limits.TheConstants.{PRICE_LIMIT};
ghost use Rattle.fare_why.specs.Reasons.{is_cheaper, saved_by};

/// Whether a price is less than a total, or is there where no total is.
pub(crate) fn is_cheaper(total: Option<u64>, price: u64) -> bool
    ensures { result ≡ is_cheaper total price }
{
    match total {
        None => true,
        Some(total) => price < total,
    }
}

/// What a price saves of a total, where there is one.
pub(crate) fn saved_by(total: Option<u64>, price: u64) -> Option<u64>
    requires { IfSome total (λ most. most < PRICE_LIMIT) }
    ensures value { result ≡ saved_by total price }
    ensures bound { IfSome result (λ saved. saved < PRICE_LIMIT) }
{
    match total {
        None => None,
        Some(total) => Some(total.saturating_sub(price)),
    }
}
