//! The kinds of condition, in their order.

ghost use Rattle.std.specs.Prelude.{◌≡◌};
ghost use Rattle.fare_relaxed.specs.Terms.{all_terms};

use crate::term::{TERMS, Term};

/// The seven kinds of condition, in their order.
pub fn all_terms() -> [Term; TERMS]
    ensures { result ≡ all_terms }
{
    [
        Term::Advance,
        Term::Stay,
        Term::Stopovers,
        Term::Transfers,
        Term::Surcharge,
        Term::Units,
        Term::Ends,
    ]
}
