//! Where the likes of a fare stand. The fares of a carrier, a class and a rule are mostly filed in the same order
//! between any two cities, so the place of one guesses that of the other, and no search through the fares between them
//! is needed.

ghost use Rattle.std.specs.Prelude.{◌≡◌, true};
ghost use Rattle.fare_tariff.specs.Filed.{FilesFareOn};
ghost use Rattle.fare_tariff.specs.Lookup.{fare_number};

use crate::edition::Edition;
use crate::laws::fare_of_a_day_is_one;
use crate::look_up::fares::{has_key, number_at};
use crate::look_up::seek::{Sought, first_between, first_fare_from};
use fare_codes::MonthDay;
use fare_records::FareKey;

/// The record number of a place so many records behind the first. Nothing is stated of it: it is a guess.
fn number_ahead(first: Option<usize>, ahead: u32) -> Option<u32> {
    let Ok(place) = u32::try_from(first?) else {
        return None;
    };
    Some(place.saturating_add(ahead).saturating_add(2))
}

impl Edition {
    /// How many records behind the first fare between its cities the fare of a number stands: a guess of where its
    /// likes stand between other cities. Nothing is stated of it, and nothing rests on it but time.
    pub fn records_ahead(&self, number: u32) -> u32 {
        if self.fare_at(number).is_none() {
            return 0;
        }
        match self.filed().first_at(number as usize - 2) {
            None => 0,
            Some(first) => match u32::try_from(first) {
                Ok(first) => (number - 2).saturating_sub(first),
                Err(_) => 0,
            },
        }
    }

    /// Whether the record of a number files a fare with a key whose season holds a day.
    fn files_on(&self, number: u32, key: &FareKey, on: MonthDay) -> bool
        ensures { result ≡ true → FilesFareOn self.now key.now on number }
    {
        match self.fare_at(number) {
            None => false,
            Some(fare) => has_key(key, fare) && fare.season.holds(on),
        }
    }

    /// The record number of the fare with this key whose season holds a day, as `fare` answers it. It is looked for
    /// first so many records behind the first fare between its cities.
    pub fn fare_ahead(&self, key: &FareKey, on: MonthDay, ahead: u32) -> Option<u32>
        ensures { result ≡ fare_number self.now key.now on }
    {
        let first = first_between(self.filed(), key);
        if let Some(number) = number_ahead(first, ahead) {
            if self.files_on(number, key, on) {
                fare_of_a_day_is_one(self);
                return Some(number);
            }
        }
        let sought = Sought::On(on);
        number_at(first_fare_from(self.filed(), key, &sought, first))
    }
}
