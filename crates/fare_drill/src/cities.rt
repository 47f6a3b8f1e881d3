//! The cities of a drill.

ghost use Rattle.std.specs.Prelude.{◌≡◌, IfOk, length, map};
ghost use Rattle.std.specs.List.{range_with_len};
ghost use Rattle.fare_drill.specs.Cities.{letter, city, country_of, extra_city, city_record, extra_record};

use fare_codes::{Area, City, Country};
use fare_ports::NoMemory;
use fare_tariff::{CityRec, Record};
use std::alloc::Global;

/// The letter of a number, from 0 for A, and from A again behind Z.
fn letter(i: u32) -> u8
    ensures { result ≡ letter i }
{
    b'A' + (i % 26) as u8
}

/// The city of a number, from 0: `CA` and a letter.
#[tactic(auto, using(crate::proofs::CityForms::city_reads))]
pub(crate) fn city(i: u32) -> City
    ensures { result ≡ city i }
{
    City::read(&[b'C', b'A', letter(i)]).unwrap()
}

/// The extra city of a number, from 0: `D` and two letters, in their order.
#[tactic(auto, using(crate::proofs::CityForms::extra_city_reads))]
pub(crate) fn extra_city(i: u32) -> City
    ensures { result ≡ extra_city i }
{
    City::read(&[b'D', letter(i / 26), letter(i)]).unwrap()
}

/// The first so many extra cities.
pub(crate) fn extra_cities(alloc: Global, count: u32) -> Result<Vec<City>, NoMemory>
    ensures cities { IfOk result (λ cities. cities.items ≡ map extra_city (range_with_len 0 count)) }
    ensures count { IfOk result (λ cities. length cities.items ≡ count) }
{
    Ok((0..count).map(|i| extra_city(i)).collect(alloc)?)
}

/// The country of the city of a number.
fn country_of(i: u32) -> Country
    ensures { result ≡ country_of i }
{
    if i % 2 == 0 {
        Country::read(b"XA").unwrap()
    } else {
        Country::read(b"XB").unwrap()
    }
}

/// The record of the city of a number.
pub(crate) fn city_record(i: u32) -> Record
    ensures { result ≡ city_record i }
{
    Record::City(CityRec {
        code: city(i),
        country: country_of(i),
        area: Area::Two,
    })
}

/// The record of the extra city of a number.
pub(crate) fn extra_record(i: u32) -> Record
    ensures { result ≡ extra_record i }
{
    Record::City(CityRec {
        code: extra_city(i),
        country: country_of(0),
        area: Area::Two,
    })
}
