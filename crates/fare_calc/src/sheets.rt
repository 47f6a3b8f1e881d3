//! All that is known of a lawful construction, each figure found once.

ghost use Rattle.std.specs.Prelude.{◌≡◌, ◌<◌, ◌≤◌, None, All, IfSome, length};
ghost use Rattle.fare_rules.specs.Lawful.{first_broken};
ghost use Rattle.fare_units.specs.Advance.{Advances};
ghost use Rattle.fare_units.specs.Places.{IsPlace};
ghost use Rattle.fare_calc.specs.LineOf.{FitsLine};
ghost use Rattle.fare_calc.specs.PartSheets.{part_sheets, sheet_of_part};
ghost use Rattle.fare_calc.specs.UnitSheets.{FitsUnit, unit_sheets};

use crate::home::{home_currency, home_has_a_currency, local_amount};
use crate::keeping::keep;
use crate::numbered_unit::{NumberedUnit, numbered_unit};
use crate::part_sheet::{PartSheet, sheet_of_part};
use crate::priced::Priced;
use arrayvec::ArrayVec;
use fare_codes::Nuc;
use fare_rules::PRICE_LIMIT;
use fare_tariff::{CurRec, Edition};
use fare_trip::Trip;
use fare_units::{Construction, MOST_PARTS, price_is_of_unbroken, unit_count};
use std::marker::Model;

/// The sheets of a lawful construction: its parts and its units with their figures, its price, and the currency of the
/// country where its trip begins. Each of its texts is made from them. A contract sees the construction's parts,
/// its price, its trip and its edition.
#[derive(Drop)]
pub struct Sheets<'a> {
    priced: Priced<'a>,
    parts: ArrayVec<PartSheet, MOST_PARTS>,
    units: ArrayVec<NumberedUnit, MOST_PARTS>,
    currency: &'a CurRec,
}

impl<'a> Model for Sheets<'a> {
    ghost use Rattle.fare_calc.specs.Sheets.{AreSheets, LawfulParts};

    ghost Value = { LawfulParts };

    ghost view = { λ s. record {
      edition = s.priced.edition.now;
      trip = s.priced.trip.now;
      parts = s.priced.construction.now;
      price = s.priced.price;
    } };

    ghost invariant = { λ s. AreSheets
        (record {
          edition = s.priced.edition.now;
          trip = s.priced.trip.now;
          parts = s.priced.construction.now;
          price = s.priced.price;
        })
        s.parts.items s.units.items s.currency.now };
}

impl<'a> Sheets<'a> {
    ghost use Rattle.std.specs.Prelude.{Some, option_map};
    ghost use Rattle.fare_tariff.specs.Record.{IsCurrency};
    ghost use Rattle.fare_rules.specs.UnitPrice.{price};
    ghost use Rattle.fare_calc.specs.PartSheets.{home_currency};
    ghost use Rattle.fare_calc.specs.Worksheet.{local_amount};

    /// The sheets of a lawful construction with its price.
    #[tactic(auto, unfolding(fare_rules::specs::Lawful::lawful_price))]
    pub fn of(priced: &Priced<'a>) -> Sheets<'a>
        ensures { result ≡ record {
          edition = priced.now.edition.now;
          trip = priced.now.trip.now;
          parts = priced.now.construction.now;
          price = priced.now.price;
        } }
    {
        let edition = priced.edition;
        let trip = priced.trip;
        let c = priced.construction;
        price_is_of_unbroken(edition, trip, c, priced.price);
        home_has_a_currency(edition, trip, c);
        Sheets {
            priced: *priced,
            parts: part_sheets(edition, trip, c),
            units: unit_sheets(edition, trip, c),
            currency: home_currency(edition, trip).unwrap(),
        }
    }

    /// The edition.
    pub fn edition(&self) -> &Edition
        ensures { result.now ≡ self.now.edition }
    {
        self.priced.edition
    }

    /// The trip.
    pub fn trip(&self) -> &Trip
        ensures { result.now ≡ self.now.trip }
    {
        self.priced.trip
    }

    /// The price, in hundredths of a NUC.
    pub fn price(&self) -> u64
        ensures value { result ≡ self.now.price }
        ensures total { result ≡ price self.now.edition self.now.trip self.now.parts }
        ensures bound { result < PRICE_LIMIT }
        ensures lawful { first_broken self.now.edition self.now.trip self.now.parts ≡ None }
    {
        self.priced.price
    }

    /// How each part is priced, in their order.
    pub fn parts(&self) -> &[PartSheet]
        ensures value { result.now ≡ part_sheets self.now.edition self.now.trip self.now.parts }
        ensures fit { All FitsLine result.now }
        ensures few { length result.now ≤ MOST_PARTS }
    {
        self.parts.as_slice()
    }

    /// How each unit is priced, by their numbers.
    pub fn units(&self) -> &[NumberedUnit]
        ensures value { result.now ≡ unit_sheets self.now.edition self.now.trip self.now.parts }
        ensures fit { All FitsUnit result.now }
        ensures few { length result.now ≤ MOST_PARTS }
    {
        self.units.as_slice()
    }

    /// The currency of the country where the trip begins.
    pub fn currency(&self) -> &CurRec
        ensures value { home_currency self.now.edition self.now.trip ≡ Some result.now }
        ensures in_range { IsCurrency result.now.roe result.now.decimals result.now.unit }
    {
        self.currency
    }

    /// The price in that currency, counted in the last of its decimals.
    pub fn local_amount(&self) -> u128
        ensures { Some result
            ≡ option_map (local_amount self.now.price) (home_currency self.now.edition self.now.trip) }
    {
        local_amount(self.price(), self.currency())
    }
}

/// The sheet of a part of a lawful construction.
fn fitting_sheet(edition: &Edition, trip: &Trip, c: &Construction, k: usize) -> Option<PartSheet>
    requires lawful { first_broken edition.now trip.now c.now ≡ None }
    requires advances { Advances trip.now c.now }
    requires place { IsPlace c.now k }
    ensures value { result ≡ sheet_of_part edition.now trip.now c.now k }
    ensures fits { IfSome result FitsLine }
{
    let _sectors = trip.count();
    sheet_of_part(edition, trip, c.parts(), k)
}

/// The sheets of the parts of a lawful construction.
fn part_sheets(edition: &Edition, trip: &Trip, c: &Construction) -> ArrayVec<PartSheet, MOST_PARTS>
    requires lawful { first_broken edition.now trip.now c.now ≡ None }
    requires advances { Advances trip.now c.now }
    ensures sheets { result.items ≡ part_sheets edition.now trip.now c.now }
    ensures fit { All FitsLine result.items }
{
    // A sheet holds cities and an amount within options; the check learns from these calls where their types stand.
    let _home = trip.point(0);
    let _nothing = Nuc::new(0);
    let mut sheets = ArrayVec::new();
    for k in 0..c.parts().len() {
        keep(&mut sheets, fitting_sheet(edition, trip, c, k + 1));
    }
    sheets
}

/// The units of a lawful construction.
#[tactic(auto, using(crate::proofs::LineParts::lawful_few_units))]
fn unit_sheets(
    edition: &Edition,
    trip: &Trip,
    c: &Construction,
) -> ArrayVec<NumberedUnit, MOST_PARTS>
    requires { first_broken edition.now trip.now c.now ≡ None }
    ensures units { result.items ≡ unit_sheets edition.now trip.now c.now }
    ensures fit { All FitsUnit result.items }
{
    let _sectors = trip.count();
    let mut units = ArrayVec::new();
    for unit in 0..unit_count(c) {
        units.push(numbered_unit(edition, trip, c, unit as u8 + 1));
    }
    units
}
