//! References between the points of a trip, each looked up once for all fares that share it.

ghost use Rattle.std.specs.Prelude.{◌≡◌, ◌+◌, ◌<◌, ◌≤◌, ℕ, None, IfSome, IsTrue, slice_index_or};
ghost use Rattle.fare_trip.specs.Itinerary.{Itinerary, count};
ghost use Rattle.fare_tariff.specs.Tariff.{Tariff};
ghost use Rattle.fare_rules.specs.Base.{reference_between};
ghost use Rattle.fare_rules.specs.Terms.{terms_of_fare};
ghost use Rattle.fare_component.specs.declared.table.references.Form.{Form};
ghost use Rattle.fare_component.specs.References.{AreReferences, IsOfForm, IsReach, IsReference};
ghost use Rattle.fare_component.specs.References.{found_of, kept_at, nothing, reference_of};

use crate::table::known::Known;
use fare_codes::{Day, FARE_LIMIT, Nuc};
use fare_conditions::{Priced, terms_of_fare};
use fare_points::{Likes, reference_of};
use fare_records::same_rules;
use fare_rules::MOST_POINTS;
use fare_tariff::{Edition, FareRec, Terms};

/// How many pairs of points a trip can have.
const MOST_PAIRS: usize = MOST_POINTS * MOST_POINTS;

/// What a reference is looked up for: a fare, of which its carrier, class, kind and rule alone count, its direction and
/// a day; and where it stands among the fares between its cities, by which its references are found.
#[derive(Clone, Copy)]
pub(crate) struct Form {
    pub(crate) fare: FareRec,
    pub(crate) ahead: u32,
    pub(crate) back: bool,
    pub(crate) on: Day,
}

/// How far the references of one form were gone through, for the components from a point on: the greatest of those
/// that each of them compares and that end before another point, and of those that begin at the first point and end at
/// a stopover before the other, in hundredths.
#[derive(Clone, Copy)]
pub(crate) struct Reach {
    pub(crate) from: usize,
    pub(crate) past: usize,
    pub(crate) high: u64,
    pub(crate) first: u64,
}

/// The greatest reference of one form, in hundredths, from the stopovers from a point on to a later point.
#[derive(Clone, Copy)]
pub(crate) struct Column {
    pub(crate) first: usize,
    pub(crate) high: u64,
}

/// The references of one form that were looked up so far, in hundredths and by the two points, and what the form's rule
/// asks; a column stands by the point where it ends.
#[derive(Drop)]
pub(crate) struct References {
    pub(crate) form: Form,
    pub(crate) asked: Option<Terms>,
    pub(crate) found: [Known; MOST_PAIRS],
    pub(crate) columns: [Option<Column>; MOST_POINTS],
    pub(crate) reach: Reach,
}

/// Whether a form's references are those of a fare in a direction.
pub(crate) fn is_of_form(form: &Form, fare: &FareRec, back: bool) -> bool
    ensures { IsTrue result → IsOfForm fare.now back form.now }
{
    form.back == back
        && form.fare.carrier.is(fare.carrier)
        && form.fare.class.is(fare.class)
        && form.fare.kind.is(fare.kind)
        && same_rules(&form.fare.rule, &fare.rule)
}

/// The reference of a form between two points.
fn reference_between(priced: &Priced, form: &Form, i: usize, j: usize) -> Option<Nuc>
    requires rises { i < j }
    requires within { j ≤ count priced.now.trip.now }
    ensures value { result
        ≡ reference_between priced.now.edition.now priced.now.trip.now form.now.fare form.now.back form.now.on i j }
    ensures bound { IfSome result (λ amount. amount < FARE_LIMIT) }
{
    let ind = priced.indicator(i, j);
    let (earlier, later) = (priced.trip.point(i), priced.trip.point(j));
    let likes = &Likes {
        fare: &form.fare,
        ahead: form.ahead,
    };
    if form.back {
        reference_of(priced.edition, later, earlier, ind, likes, form.on)
    } else {
        reference_of(priced.edition, earlier, later, ind, likes, form.on)
    }
}

/// The hundredths of an amount, where there is one.
fn hundredths_of(found: Option<Nuc>) -> Option<u64>
    ensures { result ≡ found }
{
    match found {
        None => None,
        Some(amount) => Some(amount.hundredths()),
    }
}

/// The amount of hundredths, where there are any.
fn amount_of(found: Option<u64>) -> Option<Nuc>
    requires { IfSome found (λ amount. amount < FARE_LIMIT) }
    ensures { result ≡ found }
{
    match found {
        None => None,
        Some(hundredths) => Some(Nuc::new(hundredths)),
    }
}

impl Reach {
    /// From a point, and no further.
    fn at(a: usize) -> Reach
        requires { a < MOST_POINTS }
        ensures from { result.from ≡ a }
        ensures past { result.past ≡ a + 1 }
        ensures right { (tariff : Tariff) (trip : Itinerary) (form : Form) → IsReach tariff trip form result }
    {
        Reach {
            from: a,
            past: a + 1,
            high: 0,
            first: 0,
        }
    }
}

impl References {
    /// None is known yet of the fare of a number.
    pub(crate) fn new(
        edition: &Edition,
        number: u32,
        fare: &FareRec,
        back: bool,
        on: Day,
    ) -> References
        ensures form { IsOfForm fare.now back result.form }
        ensures day { result.form.on ≡ on }
        ensures asked { result.asked ≡ terms_of_fare edition.now result.form.fare }
        ensures none { (place : ℕ) → found_of (slice_index_or result.found place nothing) ≡ None }
        ensures columns { (j : ℕ) → kept_at result j ≡ None }
        ensures reach { (tariff : Tariff) (trip : Itinerary) → IsReach tariff trip result.form result.reach }
    {
        References {
            form: Form {
                fare: *fare,
                ahead: edition.records_ahead(number),
                back,
                on,
            },
            asked: terms_of_fare(edition, fare),
            found: [Known::nothing(); MOST_PAIRS],
            columns: [None; MOST_POINTS],
            reach: Reach::at(0),
        }
    }

    /// Goes on to a point for the components from another, from there anew where it has come from elsewhere or too far.
    pub(crate) fn begin(&mut self, a: usize, b: usize)
        requires rises { a < b }
        requires within { b ≤ MOST_POINTS }
        ensures from { self.new.reach.from ≡ a }
        ensures past { self.new.reach.past ≤ b }
        ensures form { self.new.form ≡ self.old.form }
        ensures right { (tariff : Tariff) (trip : Itinerary) → AreReferences tariff trip self.old
            → AreReferences tariff trip self.new }
    {
        if self.reach.from != a || b < self.reach.past {
            self.reach = Reach::at(a);
        }
    }

    /// The hundredths of the reference between two points, looked up.
    #[cold]
    #[inline(never)]
    fn looked_up(&self, priced: &Priced, i: usize, j: usize) -> Option<u64>
        requires rises { i < j }
        requires within { j ≤ count priced.now.trip.now }
        ensures value { result ≡ reference_of priced.now.edition.now priced.now.trip.now self.now.form i j }
        ensures bound { IfSome result (λ amount. amount < FARE_LIMIT) }
    {
        hundredths_of(reference_between(priced, &self.form, i, j))
    }

    /// From here on the reference between two points, in hundredths, is known.
    pub(crate) fn put(&mut self, priced: &Priced, i: usize, j: usize, found: Option<u64>)
        requires right { AreReferences priced.now.edition.now priced.now.trip.now self.old }
        requires rises { i < j }
        requires within { j ≤ count priced.now.trip.now }
        requires found { IsReference priced.now.edition.now priced.now.trip.now self.old.form i j found }
        ensures form { self.new.form ≡ self.old.form }
        ensures reach { self.new.reach ≡ self.old.reach }
        ensures right { AreReferences priced.now.edition.now priced.now.trip.now self.new }
    {
        let count = priced.trip.count();
        prove!(j <= count);
        self.found[i * MOST_POINTS + j] = Known::of(found);
    }

    /// The reference between two points, which is looked up where it isn't known.
    #[inline(always)]
    pub(crate) fn between(&mut self, priced: &Priced, i: usize, j: usize) -> Option<Nuc>
        requires right { AreReferences priced.now.edition.now priced.now.trip.now self.old }
        requires rises { i < j }
        requires within { j ≤ count priced.now.trip.now }
        ensures value { result ≡ reference_of priced.now.edition.now priced.now.trip.now self.old.form i j }
        ensures bound { IfSome result (λ amount. amount < FARE_LIMIT) }
        ensures form { self.new.form ≡ self.old.form }
        ensures reach { self.new.reach ≡ self.old.reach }
        ensures right { AreReferences priced.now.edition.now priced.now.trip.now self.new }
    {
        let count = priced.trip.count();
        prove!(j <= count);
        if let Some(found) = self.found[i * MOST_POINTS + j].found() {
            return amount_of(found);
        }
        let found = self.looked_up(priced, i, j);
        self.put(priced, i, j, found);
        amount_of(found)
    }
}
