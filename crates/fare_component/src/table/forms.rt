//! What is known of the references of each form of fare.

ghost use Rattle.std.specs.Prelude.{◌≡◌, ◌<◌, ◌≤◌, ℕ, length, slice_index_or, IfOk, IfSome, IsTrue, OnOk};
ghost use Rattle.fare_trip.specs.Itinerary.{Itinerary, count};
ghost use Rattle.fare_tariff.specs.Tariff.{Tariff};
ghost use Rattle.fare_component.specs.declared.table.references.References.{References};
ghost use Rattle.fare_component.specs.References.{AreForms, IsOfForm};
ghost use Rattle.fare_component.specs.Tried.{AreFormsFor};

use crate::table::entry::Candidate;
use crate::table::references::{References, is_of_form};
use fare_conditions::Priced;
use fare_ports::NoMemory;
use fare_tariff::FareRec;
use fare_trip::Trip;
use std::alloc::Global;

/// So many forms are kept at once; a trip whose fares have more is priced with some references looked up again.
const MOST_FORMS: usize = 256;

/// The references of the forms that came so far, all of one day, and the place of the form that is expected next: the
/// fares of a span mostly have the forms of those of the span before, in the same order.
#[derive(Drop)]
pub(crate) struct Forms {
    pub(crate) items: Vec<References>,
    next: usize,
}

impl Forms {
    /// No form.
    pub(crate) fn new(alloc: Global) -> Forms
        ensures { (tariff : Tariff) (trip : Itinerary) (a : ℕ) → AreForms tariff trip a result.items.items }
    {
        Forms {
            items: Vec::new(alloc),
            next: 0,
        }
    }

    /// Goes on to the components from a point: what is known of another day is let go.
    pub(crate) fn begin(&mut self, trip: &Trip, a: usize)
        requires { a < count trip.now }
        ensures { (tariff : Tariff) (other : ℕ) → AreForms tariff trip.now other self.old.items.items
            → AreForms tariff trip.now a self.new.items.items }
    {
        let count = trip.count();
        prove!(a < count);
        let on = trip.sector(a + 1).day;
        if self.items.is_empty() || !self.items[0].form.on.is(on) {
            self.items.clear();
        }
    }

    /// Whether the form of a fare in a direction stands at a place.
    fn stands_at(&self, place: usize, fare: &FareRec, back: bool) -> bool
        ensures within { IsTrue result → place < length self.now.items.items }
        ensures form { (d : References)
            → IsTrue result → IsOfForm fare.now back (slice_index_or self.now.items.items place d).form }
    {
        place < self.items.len() && is_of_form(&self.items[place].form, fare, back)
    }

    /// The place of the form of a fare in a direction, where it came already.
    fn find(&self, fare: &FareRec, back: bool) -> Option<usize>
        ensures within { IfSome result (λ place. place < length self.now.items.items) }
        ensures form { (d : References)
            → IfSome result (λ place. IsOfForm fare.now back (slice_index_or self.now.items.items place d).form) }
    {
        if self.stands_at(self.next, fare, back) {
            return Some(self.next);
        }
        for place in 0..self.items.len() {
            if self.stands_at(place, fare, back) {
                return Some(place);
            }
        }
        None
    }

    /// Puts the form of a fare in a direction last, and tells its place. It stands apart since a function makes room
    /// for what it holds at each call.
    #[cold]
    #[inline(never)]
    fn add(&mut self, priced: &Priced, tried: &Candidate, back: bool) -> Result<usize, NoMemory>
        requires within { tried.now.span.now.a < count priced.now.trip.now }
        requires forms { AreFormsFor priced.now tried.now self.old.items.items }
        ensures within { IfOk result (λ place. place < length self.new.items.items) }
        ensures form { (d : References)
            → IfOk result (λ place. IsOfForm tried.now.fare.now back
            (slice_index_or self.new.items.items place d).form) }
        ensures forms { OnOk result (AreFormsFor priced.now tried.now self.new.items.items) }
    {
        let a = tried.span.a;
        let count = priced.trip.count();
        prove!(a < count);
        let on = priced.trip.sector(a + 1).day;
        self.items.truncate(MOST_FORMS - 1);
        let place = self.items.len();
        self.items.push(References::new(priced.edition, tried.number, tried.fare, back, on))?;
        Ok(place)
    }

    /// The place of the form of a fare that is tried, in a direction; it comes last where it is new.
    pub(crate) fn place_of(
        &mut self,
        priced: &Priced,
        tried: &Candidate,
        back: bool,
    ) -> Result<usize, NoMemory>
        requires within { tried.now.span.now.a < count priced.now.trip.now }
        requires forms { AreFormsFor priced.now tried.now self.old.items.items }
        ensures within { IfOk result (λ place. place < length self.new.items.items) }
        ensures form { (d : References)
            → IfOk result (λ place. IsOfForm tried.now.fare.now back
            (slice_index_or self.new.items.items place d).form) }
        ensures forms { OnOk result (AreFormsFor priced.now tried.now self.new.items.items) }
    {
        let place = match self.find(tried.fare, back) {
            Some(place) => place,
            None => self.add(priced, tried, back)?,
        };
        self.next = place + 1;
        Ok(place)
    }
}
