//! The pairs of points of a component whose references its fare is compared with.

ghost use Rattle.std.specs.Prelude.{◌≡◌, ◌<◌, ◌≤◌, ◌≢◌, ◌==◌, ◌&&◌, IfSome};
ghost use Rattle.fare_trip.specs.Itinerary.{count};
ghost use Rattle.fare_rules.specs.Span.{first_day};
ghost use Rattle.fare_rules.specs.Base.{is_end_or_stopover, is_compared, reference_between, compared_reference};
ghost use Rattle.fare_rules.specs.Base.{compared_pair};
ghost use Rattle.fare_rules.specs.Indicator.{indicator};
ghost use Rattle.fare_points.specs.Improved.{IsPairOf};

use crate::references::reference;
use fare_codes::{FARE_LIMIT, Indicator, Nuc};
use fare_tariff::{Edition, FareRec};
use fare_trip::Trip;

/// A pair of points of a component, and the reference between them.
pub(crate) type Compared = (usize, usize, Nuc);

/// A fare on a component of a trip, and the edition whose references it is compared with.
#[derive(Clone, Copy)]
pub(crate) struct Component<'a> {
    pub(crate) edition: &'a Edition,
    pub(crate) trip: &'a Trip,
    /// The point where the component begins.
    pub(crate) a: usize,
    /// The point where it ends.
    pub(crate) b: usize,
    pub(crate) fare: &'a FareRec,
    /// Whether the fare is priced from `b` to `a`.
    pub(crate) back: bool,
}

/// Whether a point is the end of a component on its side or a stopover.
fn is_end_or_stopover(trip: &Trip, end: usize, i: usize) -> bool
    requires reached { i ≢ end → 1 ≤ i }
    requires within { i ≤ count trip.now }
    ensures { result ≡ is_end_or_stopover trip.now end i }
{
    i == end || trip.sector(i).stop
}

/// Whether a pair of points of a component is the whole of it.
fn is_whole(a: usize, b: usize, i: usize, j: usize) -> bool
    ensures { result ≡ ((i == a) && (j == b)) }
{
    i == a && j == b
}

/// Whether a pair of points of a component is compared: it isn't the whole, and each of its points is the component's
/// end on its side or a stopover.
pub fn is_compared(trip: &Trip, a: usize, b: usize, i: usize, j: usize) -> bool
    requires begins { a ≤ i }
    requires rises { i < j }
    requires within { j ≤ count trip.now }
    ensures { result ≡ is_compared trip.now a b i j }
{
    !is_whole(a, b, i, j) && is_end_or_stopover(trip, a, i) && is_end_or_stopover(trip, b, j)
}

impl Component<'_> {
    /// The reference between two points of the component, whose indicator is this, on the day of its first sector: from
    /// the earlier to the later, or the other way where it is priced back.
    fn reference_between(&self, ind: Indicator, i: usize, j: usize) -> Option<Nuc>
        requires begins { self.now.a ≤ i }
        requires rises { i < j }
        requires within { j ≤ count self.now.trip.now }
        requires indicator { ind ≡ indicator self.now.edition.now self.now.trip.now i j }
        ensures value { result ≡ reference_between self.now.edition.now self.now.trip.now self.now.fare.now
            self.now.back (first_day self.now.trip.now self.now.a) i j }
        ensures bound { IfSome result (λ amount. amount < FARE_LIMIT) }
    {
        let on = self.trip.sector(self.a + 1).day;
        let (earlier, later) = (self.trip.point(i), self.trip.point(j));
        if self.back {
            reference(self.edition, later, earlier, ind, self.fare, on)
        } else {
            reference(self.edition, earlier, later, ind, self.fare, on)
        }
    }

    /// The reference of a pair of points of the component, whose indicator is this, where it is compared and there is
    /// one.
    fn compared_reference(&self, ind: Indicator, i: usize, j: usize) -> Option<Nuc>
        requires begins { self.now.a ≤ i }
        requires rises { i < j }
        requires within { j ≤ count self.now.trip.now }
        requires indicator { ind ≡ indicator self.now.edition.now self.now.trip.now i j }
        ensures value { result ≡ compared_reference self.now.edition.now self.now.trip.now self.now.a self.now.b
            self.now.fare.now self.now.back i j }
        ensures bound { IfSome result (λ amount. amount < FARE_LIMIT) }
    {
        if is_compared(self.trip, self.a, self.b, i, j) {
            self.reference_between(ind, i, j)
        } else {
            None
        }
    }

    /// What is found for a pair of points of the component, whose indicator is this.
    pub(crate) fn compared_pair(&self, ind: Indicator, i: usize, j: usize) -> Option<Compared>
        requires begins { self.now.a ≤ i }
        requires rises { i < j }
        requires ends { j ≤ self.now.b }
        requires within { self.now.b ≤ count self.now.trip.now }
        requires indicator { ind ≡ indicator self.now.edition.now self.now.trip.now i j }
        ensures value { result ≡ compared_pair self.now.edition.now self.now.trip.now self.now.a self.now.b
            self.now.fare.now self.now.back i j }
        ensures bound { IfSome result (IsPairOf self.now.a self.now.b) }
    {
        match self.compared_reference(ind, i, j) {
            None => None,
            Some(amount) => Some((i, j, amount)),
        }
    }
}
