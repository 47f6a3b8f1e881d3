//! A rule, relaxed by a kind of condition.

ghost use Rattle.std.specs.Prelude.{◌≡◌, ◌++◌, [], ◌∷◌, IfOk, OnOk};
ghost use Rattle.fare_relaxed.specs.Relax.{relaxed_rule};

use crate::term::Term;
use fare_codes::RuleId;
use fare_ports::NoMemory;
use fare_tariff::{MOST_DAYS, MOST_STOPS, MOST_TRANSFERS, Names, RuleList, RuleRec};
use std::alloc::Global;

/// Adds a name at the end. After want of memory the list may be of any length.
fn push_name(list: &mut RuleList, name: &Option<RuleId>) -> Result<(), NoMemory>
    ensures { OnOk result (list.new ≡ list.old ++ name.now ∷ []) }
{
    list.push(*name)
}

/// A list with the same names.
fn same_list(alloc: Global, list: &RuleList) -> Result<RuleList, NoMemory>
    ensures { IfOk result (λ made. made ≡ list.now) }
{
    let mut made = RuleList::new(alloc);
    let names = list.names();
    for name in names {
        push_name(&mut made, name)?;
    }
    Ok(made)
}

/// The same names.
fn same_names(alloc: Global, names: &Names) -> Result<Names, NoMemory>
    ensures { IfOk result (λ made. made ≡ names.now) }
{
    match names {
        Names::All => Ok(Names::All),
        Names::Of(list) => Ok(Names::Of(same_list(alloc, list)?)),
    }
}

/// The same rule.
fn same_rule(alloc: Global, rule: &RuleRec) -> Result<RuleRec, NoMemory>
    ensures { IfOk result (λ made. made ≡ rule.now) }
{
    Ok(RuleRec {
        id: rule.id,
        excess: rule.excess,
        stops: rule.stops,
        transfers: rule.transfers,
        advance: rule.advance,
        min_stay: rule.min_stay,
        max_stay: rule.max_stay,
        units: same_names(alloc, &rule.units)?,
        ends: same_names(alloc, &rule.ends)?,
    })
}

/// A rule that asks for as little by a kind of condition as a record can.
fn relax_rule(term: Term, mut rule: RuleRec) -> RuleRec
    ensures { result ≡ relaxed_rule term rule }
{
    match term {
        Term::Advance => rule.advance = 0,
        Term::Stay => {
            rule.min_stay = 0;
            rule.max_stay = MOST_DAYS;
        }
        Term::Stopovers => rule.stops = MOST_STOPS,
        Term::Transfers => rule.transfers = MOST_TRANSFERS,
        Term::Surcharge => rule.excess = true,
        Term::Units => rule.units = Names::All,
        Term::Ends => rule.ends = Names::All,
    }
    rule
}

/// A rule, relaxed by a kind of condition.
pub(crate) fn relaxed_rule(alloc: Global, term: Term, rule: &RuleRec) -> Result<RuleRec, NoMemory>
    ensures { IfOk result (λ made. made ≡ relaxed_rule term rule.now) }
{
    Ok(relax_rule(term, same_rule(alloc, rule)?))
}
