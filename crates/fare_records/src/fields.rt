//! Fields of records beside one another: the rules of fares, the via cities of allowances, and pairs of cities.

ghost use Rattle.std.specs.Prelude.{◌≡◌, ◌↔◌, IsTrue};
ghost use Rattle.fare_records.specs.Fields.{same_rule, same_via, same_pair};

use fare_codes::{City, RuleId};

/// Whether two rule fields are the same, of which nothing is the free rule.
pub fn same_rules(a: &Option<RuleId>, b: &Option<RuleId>) -> bool
    ensures same { IsTrue result ↔ (a.now ≡ b.now) }
    ensures test { result ≡ same_rule a.now b.now }
{
    match (a, b) {
        (None, None) => true,
        (Some(a), Some(b)) => a.is(*b),
        _ => false,
    }
}

/// Whether two via fields are the same, of which nothing is every way.
pub(crate) fn same_vias(a: &Option<City>, b: &Option<City>) -> bool
    ensures same { IsTrue result ↔ (a.now ≡ b.now) }
    ensures test { result ≡ same_via a.now b.now }
{
    match (a, b) {
        (None, None) => true,
        (Some(a), Some(b)) => a.is(*b),
        _ => false,
    }
}

/// Whether the unordered pair of `a` and `b` is that of `c` and `d`.
pub fn same_pairs(a: City, b: City, c: City, d: City) -> bool
    ensures { result ≡ same_pair a b c d }
{
    (a.is(c) && b.is(d)) || (a.is(d) && b.is(c))
}
