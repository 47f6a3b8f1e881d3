//! Whether an edition asks for anything by a kind of condition.

ghost use Rattle.std.specs.Prelude.{◌≡◌};
ghost use Rattle.fare_relaxed.specs.Relax.{asks, names_ask, record_asks, rule_asks};

use crate::term::Term;
use fare_tariff::{Edition, MOST_DAYS, MOST_STOPS, MOST_TRANSFERS, Names, Record, RuleRec};

/// Whether a list leaves some rule out.
fn names_ask(names: &Names) -> bool
    ensures { result ≡ names_ask names.now }
{
    match names {
        Names::All => false,
        Names::Of(_) => true,
    }
}

/// Whether a rule asks for something by a kind of condition.
fn rule_asks(term: Term, rule: &RuleRec) -> bool
    ensures { result ≡ rule_asks term rule.now }
{
    match term {
        Term::Advance => rule.advance != 0,
        Term::Stay => rule.min_stay != 0 || rule.max_stay != MOST_DAYS,
        Term::Stopovers => rule.stops != MOST_STOPS,
        Term::Transfers => rule.transfers != MOST_TRANSFERS,
        Term::Surcharge => !rule.excess,
        Term::Units => names_ask(&rule.units),
        Term::Ends => names_ask(&rule.ends),
    }
}

/// Whether a record is a rule that does.
fn record_asks(term: Term, one: &Record) -> bool
    ensures { result ≡ record_asks term one.now }
{
    match one {
        Record::Rule(filed) => rule_asks(term, filed.rule()),
        _ => false,
    }
}

/// Whether some rule of an edition asks for something by a kind of condition. Where none does, the edition relaxed by
/// that kind is the edition itself (`unasked_stays_the_same`).
pub fn asks(edition: &Edition, term: Term) -> bool
    ensures { result ≡ asks term edition.now }
{
    edition.records().iter().any(
        |one: &Record| -> bool
            ensures { result ≡ record_asks term one.now }
        { record_asks(term, one) },
    )
}
