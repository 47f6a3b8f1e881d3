//! What would make a trip cheaper.

ghost use Rattle.std.specs.Prelude.{◌≡◌, ◌<◌, IfSome};
ghost use Rattle.fare_rules.specs.declared.limits.TheConstants.{PRICE_LIMIT};

use crate::reason::Reason;
use std::marker::Model;

/// The price of the best construction of a trip in an edition, where one is lawful, and the reasons why it isn't
/// cheaper, in the order of the kinds of condition.
#[derive(Drop)]
pub struct Why {
    pub(crate) total: Option<u64>,
    pub(crate) reasons: Vec<Reason>,
}

impl Model for Why {
    ghost use Rattle.std.specs.Prelude.{◌<◌, IfSome};
    ghost use Rattle.fare_rules.specs.declared.limits.TheConstants.{PRICE_LIMIT};
    ghost use Rattle.fare_why.specs.Explanation.{Explanation};

    ghost Value = { Explanation };

    ghost view = { λ w. record { total = w.total; reasons = w.reasons.items } };

    ghost invariant = { λ w. IfSome w.total (λ total. total < PRICE_LIMIT) };
}

impl Why {
    /// The price of the best construction, in hundredths of a NUC; nothing where none is lawful.
    pub fn total(&self) -> Option<u64>
        ensures value { result ≡ self.now.total }
        ensures bound { IfSome result (λ total. total < PRICE_LIMIT) }
    {
        self.total
    }

    /// The reasons, in the order of the kinds of condition.
    pub fn reasons(&self) -> &[Reason]
        ensures { result.now ≡ self.now.reasons }
    {
        self.reasons.as_slice()
    }
}
