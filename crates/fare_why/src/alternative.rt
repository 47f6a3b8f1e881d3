//! What is cheaper without one kind of condition.

ghost use Rattle.std.specs.Prelude.{◌≡◌, Ok, Some, true, false, IfOk};
ghost use Rattle.fare_line.specs.LineText.{line_text};
ghost use Rattle.fare_calc.specs.LineOf.{line_of};
ghost use Rattle.fare_branch.specs.Search.{IsPriceOfOne};
ghost use Rattle.fare_rules.specs.Best.{IsBestAnswer};
ghost use Rattle.fare_rules.specs.Lawful.{first_broken, lawful_price};
ghost use Rattle.fare_relaxed.specs.Relax.{asks, relax};
ghost use Rattle.fare_why.specs.Reasons.{IsShownFor, Shows, ShowsIfCheaper, is_cheaper};

use crate::asked::Asked;
use crate::prices::{is_cheaper, saved_by};
use crate::reason::Reason;
use fare_branch::{best_of, best_under};
use fare_calc::{Priced, Sheets, line_by};
use fare_component::Table;
use fare_line::print_line;
use fare_ports::NoMemory;
use fare_relaxed::{
    Term, asks, lawful_stays_lawful, price_stays_the_same, relaxed, rules_are_in_range,
    unasked_stays_the_same,
};
use fare_rules::Broken;
use fare_tariff::Edition;
use fare_trip::Trip;
use fare_units::{Construction, lawful_price, price_is_of_unbroken};
use std::alloc::Global;
use std::thread::Threads;

/// The calculation line of a lawful construction, without an end of line.
fn printed_line(
    alloc: Global,
    edition: &Edition,
    trip: &Trip,
    construction: &Construction,
    price: u64,
) -> Result<Vec<u8>, NoMemory>
    requires { lawful_price edition.now trip.now construction.now ≡ Ok price }
    ensures { IfOk result (λ line. line.items ≡ line_text (line_of edition.now trip.now construction.now)) }
{
    let one = Priced {
        edition,
        trip,
        construction,
        price,
    };
    print_line(alloc, &line_by(&Sheets::of(&one)))
}

/// The first rule that a construction breaks in the edition, where it is lawful and cheaper without a kind of
/// condition.
#[tactic(auto, using(crate::proofs::Known::first_of_refused))]
fn broken_rule(asked: &Asked<'_>, term: Term, construction: &Construction, price: u64) -> Broken
    requires lawful { lawful_price (relax term asked.now.edition.now) asked.now.trip.now construction.now ≡ Ok price }
    requires cheaper { is_cheaper asked.now.total price ≡ true }
    ensures { first_broken asked.now.edition.now asked.now.trip.now construction.now ≡ Some result }
{
    price_stays_the_same();
    match lawful_price(asked.edition, asked.trip, construction) {
        Ok(_) => unreachable!(),
        Err(broken) => broken,
    }
}

/// The best construction of the edition itself is lawful without a kind of condition too, and costs the same.
fn total_is_of_one(asked: &Asked<'_>, term: Term, made: &Edition, total: u64)
    requires made { made.now ≡ relax term asked.now.edition.now }
    requires total { asked.now.total ≡ Some total }
    ensures { IsPriceOfOne made.now asked.now.trip.now total }
{
    lawful_stays_lawful();
    rules_are_in_range(asked.edition);
}

/// The best construction of the edition without a kind of condition. What costs more than the best of the edition
/// itself is left out from the start.
fn best_without(
    alloc: Global,
    asked: &Asked<'_>,
    term: Term,
    made: &Edition,
) -> Result<Option<(Construction, u64)>, NoMemory>
    requires { made.now ≡ relax term asked.now.edition.now }
    ensures { IfOk result (IsBestAnswer made.now asked.now.trip.now) }
{
    let table = Table::prepare(alloc, made, asked.trip)?;
    match asked.total {
        None => Ok(best_of(&table)),
        Some(total) => {
            total_is_of_one(asked, term, made, total);
            Ok(best_under(&table, total))
        }
    }
}

/// The best construction of the edition without a kind of condition, which is cheaper there.
fn reason_of(
    alloc: Global,
    asked: &Asked<'_>,
    term: Term,
    made: &Edition,
    best: (Construction, u64),
) -> Result<Reason, NoMemory>
    requires made { made.now ≡ relax term asked.now.edition.now }
    requires lawful { lawful_price made.now asked.now.trip.now best.0 ≡ Ok best.1 }
    requires cheaper { is_cheaper asked.now.total best.1 ≡ true }
    ensures { IfOk result (λ reason.
        Shows asked.now.edition.now asked.now.trip.now asked.now.total term (best.0, best.1) reason) }
{
    let (construction, total) = best;
    price_is_of_unbroken(made, asked.trip, &construction, total);
    let line = printed_line(alloc, made, asked.trip, &construction, total)?;
    let saves = saved_by(asked.total, total);
    let broken = broken_rule(asked, term, &construction, total);
    Ok(Reason {
        term,
        construction,
        line,
        total,
        saves,
        broken,
    })
}

/// The best construction of the edition without a kind of condition, where it is cheaper there.
fn if_cheaper(
    alloc: Global,
    asked: &Asked<'_>,
    term: Term,
    made: &Edition,
    best: (Construction, u64),
) -> Result<Option<Reason>, NoMemory>
    requires made { made.now ≡ relax term asked.now.edition.now }
    requires lawful { lawful_price made.now asked.now.trip.now best.0 ≡ Ok best.1 }
    ensures { IfOk result (λ shown.
        ShowsIfCheaper asked.now.edition.now asked.now.trip.now asked.now.total term (Some (best.0, best.1)) shown) }
{
    if is_cheaper(asked.total, best.1) {
        Ok(Some(reason_of(alloc, asked, term, made, best)?))
    } else {
        Ok(None)
    }
}

/// What a kind of condition bars where no rule asks for it: nothing.
#[tactic(auto, using(crate::proofs::Known::unasked_bars_nothing))]
fn nothing_barred(asked: &Asked<'_>, term: Term) -> Option<Reason>
    requires { asks term asked.now.edition.now ≡ false }
    ensures { IsShownFor asked.now.edition.now asked.now.trip.now asked.now.total term result }
{
    unasked_stays_the_same();
    None
}

/// What is shown for a kind of condition.
#[tactic(auto, unfolding(crate::specs::Reasons::IsShownFor))]
pub(crate) fn shown_for<R: Threads + Sync>(
    rt: &R,
    alloc: Global,
    asked: &Asked<'_>,
    term: Term,
) -> Result<Option<Reason>, NoMemory>
    ensures { IfOk result (λ shown. IsShownFor asked.now.edition.now asked.now.trip.now asked.now.total term shown) }
{
    if !asks(asked.edition, term) {
        return Ok(nothing_barred(asked, term));
    }
    let made = relaxed(rt, alloc, asked.edition, term)?;
    match best_without(alloc, asked, term, &made)? {
        None => Ok(None),
        Some(best) => if_cheaper(alloc, asked, term, &made, best),
    }
}
