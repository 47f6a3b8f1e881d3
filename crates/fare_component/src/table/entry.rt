ghost use Rattle.std.specs.Prelude.{◌≡◌, ◌*◌, ◌<◌, IfOk, IfSome, OnOk, Some, false, true};
ghost use Rattle.fare_rules.specs.UnitPrice.{at_least};
ghost use Rattle.fare_component.specs.References.{AreForms, IsOfForm};
ghost use Rattle.fare_conditions.specs.Spans.{IsSpan};
ghost use Rattle.fare_component.specs.Table.{IsInBounds, amount_of, entry_of, single_price};
ghost use Rattle.fare_component.specs.Tried.{AreFormsFor, AreReferencesFor, IsCandidate, IsOut, cost_of, suits};
ghost use Rattle.fare_conditions.specs.Usable.{IsAmount};

use crate::table::backhauls::backhaul_by;
use crate::table::bases::base_by;
use crate::table::forms::Forms;
use crate::table::references::References;
use fare_codes::{FARE_LIMIT, Nuc};
use fare_conditions::{
    Component, Priced, Span, amount_from, is_half_round_trip, suits_span, terms_allow,
};
use fare_ports::NoMemory;
use fare_rules::Amount;
use fare_tariff::{FareRec, fare_of_a_day_is_one};

/// A fare that may be used for a span, with what it costs there.
#[derive(Clone, Copy, Debug)]
pub struct Entry {
    /// Its record number.
    pub fare: u32,
    /// Its component amount where it is priced out; nothing where it may not be.
    pub out: Option<Amount>,
    /// Its component amount where it is priced back; nothing where it may not be.
    pub back: Option<Amount>,
    /// The price of a one way fare as a unit of its own; nothing exactly for a half round trip.
    pub single: Option<Nuc>,
}

impl Entry {
    /// Its component amount, priced back or not.
    pub(crate) fn amount(&self, back: bool) -> Option<Amount>
        requires { IsInBounds self.now }
        ensures value { result ≡ amount_of self.now back }
        ensures bound { IfSome result IsAmount }
    {
        if back { self.back } else { self.out }
    }
}

/// The greater of an amount and a minimum, where there is one.
pub(crate) fn at_least(amount: Nuc, minimum: Option<Nuc>) -> Nuc
    ensures { result ≡ at_least amount minimum }
{
    match minimum {
        None => amount,
        Some(minimum) => Nuc::new(amount.hundredths().max(minimum.hundredths())),
    }
}

/// A fare that is tried for a span whose mileage asks for a surcharge.
#[derive(Clone, Copy)]
pub(crate) struct Candidate<'a> {
    pub(crate) span: &'a Span,
    pub(crate) number: u32,
    pub(crate) fare: &'a FareRec,
}

/// What a fare costs for a span where it is priced out, and as a unit of its own.
#[derive(Clone, Copy)]
struct Out {
    amount: Option<Amount>,
    single: Option<Nuc>,
}

/// From here on the reference of a form for a span that a fare of it is for is known: it is the fare's amount, since no
/// other fare has its key on the day.
fn learn(priced: &Priced, known: &mut References, tried: &Candidate, back: bool)
    requires known { AreReferencesFor priced.now tried.now known.old }
    requires form { IsOfForm tried.now.fare.now back known.old.form }
    requires tried { IsCandidate priced.now tried.now }
    requires suits { suits priced.now tried.now back ≡ true }
    ensures form { known.new.form ≡ known.old.form }
    ensures known { AreReferencesFor priced.now tried.now known.new }
{
    fare_of_a_day_is_one(priced.edition);
    let fare = tried.fare;
    let amount = fare.amount.hundredths();
    known.put(priced, tried.span.a, tried.span.b, Some(amount));
}

/// The amount of a fare for a span that it is for, by the references of its form.
#[tactic(auto, using(fare_conditions::proofs::AmountLemmas::refused, fare_conditions::proofs::AmountLemmas::granted, crate::proofs::ReferenceLemmas::terms_of_form))]
fn amount_by(
    priced: &Priced,
    known: &mut References,
    tried: &Candidate,
    back: bool,
) -> Option<Amount>
    requires known { AreReferencesFor priced.now tried.now known.old }
    requires form { IsOfForm tried.now.fare.now back known.old.form }
    requires tried { IsCandidate priced.now tried.now }
    requires suits { suits priced.now tried.now back ≡ true }
    ensures value { result ≡ cost_of priced.now tried.now back }
    ensures bound { IfSome result IsAmount }
    ensures form { known.new.form ≡ known.old.form }
    ensures known { AreReferencesFor priced.now tried.now known.new }
{
    learn(priced, known, tried, back);
    let (span, fare) = (tried.span, tried.fare);
    if !terms_allow(priced.edition, priced.trip, fare, &known.asked, span) {
        return None;
    }
    let component = Component {
        a: span.a,
        b: span.b,
        back,
    };
    let base = base_by(priced, known, component, fare);
    Some(amount_from(base, span.step))
}

/// The price of a fare for a span as a unit of its own, where its amount priced out is this; nothing for a half round
/// trip.
#[tactic(auto, using(fare_conditions::proofs::AmountLemmas::at_least_bound), unfolding(fare_rules::specs::UnitPrice::one_way_price, fare_rules::specs::ComponentAmount::component_amount))]
fn single_price(
    priced: &Priced,
    known: &mut References,
    tried: &Candidate,
    out: &Option<Amount>,
) -> Option<Nuc>
    requires known { AreReferencesFor priced.now tried.now known.old }
    requires form { IsOfForm tried.now.fare.now false known.old.form }
    requires tried { IsCandidate priced.now tried.now }
    requires out { out.now ≡ cost_of priced.now tried.now false }
    requires bound { IfSome out.now IsAmount }
    ensures value { result ≡ single_price priced.now.edition.now priced.now.trip.now
        tried.now.span.now.a tried.now.span.now.b tried.now.number }
    ensures bound { IfSome result (λ amount. amount < 2 * FARE_LIMIT) }
    ensures known { AreReferencesFor priced.now tried.now known.new }
{
    let (span, fare) = (tried.span, tried.fare);
    if is_half_round_trip(fare) {
        return None;
    }
    match out {
        None => None,
        Some(found) => {
            let minimum = backhaul_by(priced, known, span.a, span.b, fare);
            Some(at_least(found.amount, minimum))
        }
    }
}

/// What a fare that is for a span costs there where it is priced out.
fn out_by(priced: &Priced, forms: &mut Forms, tried: &Candidate) -> Result<Out, NoMemory>
    requires forms { AreFormsFor priced.now tried.now forms.old.items.items }
    requires tried { IsCandidate priced.now tried.now }
    requires suits { suits priced.now tried.now false ≡ true }
    ensures out { IfOk result (IsOut priced.now tried.now) }
    ensures forms { OnOk result (AreFormsFor priced.now tried.now forms.new.items.items) }
{
    let place = forms.place_of(priced, tried, false)?;
    let known = &mut forms.items[place];
    let amount = amount_by(priced, known, tried, false);
    let single = single_price(priced, known, tried, &amount);
    Ok(Out { amount, single })
}

/// What a fare costs for a span where it is priced out; nothing where it isn't for the span.
#[tactic(auto, using(fare_conditions::proofs::AmountLemmas::unsuitable, crate::proofs::SingleLemmas::no_single_there))]
fn out_of(priced: &Priced, forms: &mut Forms, tried: &Candidate) -> Result<Out, NoMemory>
    requires forms { AreFormsFor priced.now tried.now forms.old.items.items }
    requires tried { IsCandidate priced.now tried.now }
    ensures out { IfOk result (IsOut priced.now tried.now) }
    ensures forms { OnOk result (AreFormsFor priced.now tried.now forms.new.items.items) }
{
    if !suits_span(priced.edition, priced.trip, tried.span, tried.fare, false) {
        return Ok(Out {
            amount: None,
            single: None,
        });
    }
    out_by(priced, forms, tried)
}

/// The amount of a fare for a span where it is priced back; nothing where it isn't for the span.
#[tactic(auto, using(fare_conditions::proofs::AmountLemmas::unsuitable))]
fn back_of(
    priced: &Priced,
    forms: &mut Forms,
    tried: &Candidate,
) -> Result<Option<Amount>, NoMemory>
    requires forms { AreFormsFor priced.now tried.now forms.old.items.items }
    requires tried { IsCandidate priced.now tried.now }
    ensures value { IfOk result (λ found. found ≡ cost_of priced.now tried.now true) }
    ensures bound { IfOk result (λ found. IfSome found IsAmount) }
    ensures forms { OnOk result (AreFormsFor priced.now tried.now forms.new.items.items) }
{
    if !suits_span(priced.edition, priced.trip, tried.span, tried.fare, true) {
        return Ok(None);
    }
    let place = forms.place_of(priced, tried, true)?;
    let known = &mut forms.items[place];
    Ok(amount_by(priced, known, tried, true))
}

/// What the fare of a record number costs for a span.
#[tactic(auto, unfolding(fare_rules::specs::ComponentAmount::component_amount))]
fn entry_of_fare(priced: &Priced, forms: &mut Forms, tried: &Candidate) -> Result<Entry, NoMemory>
    requires forms { AreFormsFor priced.now tried.now forms.old.items.items }
    requires tried { IsCandidate priced.now tried.now }
    ensures value { IfOk result (λ entry. entry ≡ entry_of priced.now.edition.now priced.now.trip.now
        tried.now.span.now.a tried.now.span.now.b tried.now.number) }
    ensures bounds { IfOk result IsInBounds }
    ensures forms { OnOk result (AreFormsFor priced.now tried.now forms.new.items.items) }
{
    let out = out_of(priced, forms, tried)?;
    let back = back_of(priced, forms, tried)?;
    Ok(Entry {
        fare: tried.number,
        out: out.amount,
        back,
        single: out.single,
    })
}

/// What a record number costs for a span whose mileage asks for a surcharge: nothing where it files no fare.
#[tactic(auto, unfolding(fare_rules::specs::ComponentAmount::component_amount))]
pub(crate) fn entry_of(
    priced: &Priced,
    forms: &mut Forms,
    span: &Span,
    number: u32,
) -> Result<Entry, NoMemory>
    requires forms { AreForms priced.now.edition.now priced.now.trip.now span.now.a forms.old.items.items }
    requires span { IsSpan priced.now.edition.now priced.now.trip.now span.now }
    ensures value { IfOk result (λ entry. entry
        ≡ entry_of priced.now.edition.now priced.now.trip.now span.now.a span.now.b number) }
    ensures bounds { IfOk result IsInBounds }
    ensures forms { OnOk result (AreForms priced.now.edition.now priced.now.trip.now span.now.a forms.new.items.items) }
{
    match priced.edition.fare_at(number) {
        None => Ok(Entry {
            fare: number,
            out: None,
            back: None,
            single: None,
        }),
        Some(fare) => entry_of_fare(priced, forms, &Candidate { span, number, fare }),
    }
}
