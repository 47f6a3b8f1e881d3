//! A reason why a trip isn't cheaper.

ghost use Rattle.std.specs.Prelude.{◌≡◌, ◌<◌, IfSome};
ghost use Rattle.fare_rules.specs.declared.limits.TheConstants.{PRICE_LIMIT};

use fare_relaxed::Term;
use fare_rules::Broken;
use fare_units::Construction;
use std::marker::Model;

/// What is cheaper without a kind of condition: the best construction of the edition without that kind, its line and
/// its price, what it saves, and the first rule that it breaks in the edition itself.
#[derive(Drop)]
pub struct Reason {
    pub(crate) term: Term,
    pub(crate) construction: Construction,
    pub(crate) line: Vec<u8>,
    pub(crate) total: u64,
    pub(crate) saves: Option<u64>,
    pub(crate) broken: Broken,
}

impl Model for Reason {
    ghost use Rattle.fare_why.specs.Explanation.{Alternative, IsPricedWithin};

    ghost Value = { Alternative };

    ghost view = { λ r. record {
      term = r.term;
      parts = r.construction;
      line = r.line.items;
      total = r.total;
      saves = r.saves;
      broken = r.broken;
    } };

    ghost invariant = { λ r. IsPricedWithin r.total r.saves };
}

impl Reason {
    /// The kind of condition.
    pub fn term(&self) -> Term
        ensures { result ≡ self.now.term }
    {
        self.term
    }

    /// The construction.
    pub fn construction(&self) -> &Construction
        ensures { result.now ≡ self.now.parts }
    {
        &self.construction
    }

    /// Its calculation line in the edition without the kind of condition, without an end of line.
    pub fn line(&self) -> &[u8]
        ensures { result.now ≡ self.now.line }
    {
        self.line.as_slice()
    }

    /// Its price there, in hundredths of a NUC.
    pub fn total(&self) -> u64
        ensures value { result ≡ self.now.total }
        ensures bound { result < PRICE_LIMIT }
    {
        self.total
    }

    /// What it saves, in hundredths of a NUC; nothing where there is no fare with all conditions.
    pub fn saves(&self) -> Option<u64>
        ensures value { result ≡ self.now.saves }
        ensures bound { IfSome result (λ saved. saved < PRICE_LIMIT) }
    {
        self.saves
    }

    /// The first rule that it breaks in the edition, and where.
    pub fn broken(&self) -> Broken
        ensures { result ≡ self.now.broken }
    {
        self.broken
    }
}
