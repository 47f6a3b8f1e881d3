//! Records of the kinds of a single city, country or pair, from their fields.

ghost use Rattle.std.specs.Prelude.{◌≡◌};
ghost use Rattle.fare_csv.specs.Fields.{counted};
ghost use Rattle.fare_csv.specs.RecordText.{allowance_of, city_of, currency_of, mileage_of, pair_of, read_via};

use crate::field_list::FieldList;
use crate::numbers::{read_roe, read_unit};
use crate::rows::Row;
use crate::text_fault::TextFault;
use fare_codes::{Area, City, Country, Currency, Indicator, Mode, read_number};
use fare_tariff::{CityRec, CurRec, EmaRec, MOST_MILES, MileRec, PairRec};

/// Refuses a row that has another count of fields.
#[tactic(auto, unfolding(crate::specs::Fields::counted))]
pub fn counted(row: &Row, number: u32, count: usize) -> Result<(), TextFault>
    ensures { result ≡ counted number count row.now }
{
    if row.len() == count {
        Ok(())
    } else {
        Err(TextFault::BadRecord(number, 0))
    }
}

/// A CITY record.
#[tactic(auto, unfolding(crate::specs::RecordText::city_of))]
pub(crate) fn read_city(row: &FieldList, number: u32) -> Result<CityRec, TextFault>
    ensures { result ≡ city_of number row.now }
{
    row.counted(number, 4)?;
    let code = City::read(row.field(1)).ok_or(TextFault::BadRecord(number, 2))?;
    let country = Country::read(row.field(2)).ok_or(TextFault::BadRecord(number, 3))?;
    let area = Area::read(row.field(3)).ok_or(TextFault::BadRecord(number, 4))?;
    Ok(CityRec {
        code,
        country,
        area,
    })
}

/// A CUR record.
#[tactic(auto, unfolding(crate::specs::RecordText::currency_of))]
pub(crate) fn read_currency(row: &FieldList, number: u32) -> Result<CurRec, TextFault>
    ensures { result ≡ currency_of number row.now }
{
    row.counted(number, 7)?;
    let country = Country::read(row.field(1)).ok_or(TextFault::BadRecord(number, 2))?;
    let currency = Currency::read(row.field(2)).ok_or(TextFault::BadRecord(number, 3))?;
    let roe = read_roe(row.field(3)).ok_or(TextFault::BadRecord(number, 4))?;
    let decimals = read_number(row.field(4), 2).ok_or(TextFault::BadRecord(number, 5))?;
    let unit = read_unit(row.field(5)).ok_or(TextFault::BadRecord(number, 6))?;
    let mode = Mode::read(row.field(6)).ok_or(TextFault::BadRecord(number, 7))?;
    Ok(CurRec {
        country,
        currency,
        roe,
        decimals: decimals as u8,
        unit,
        mode,
    })
}

/// An MPM record.
#[tactic(auto, unfolding(crate::specs::RecordText::mileage_of))]
pub(crate) fn read_mileage(row: &FieldList, number: u32) -> Result<MileRec, TextFault>
    ensures { result ≡ mileage_of number row.now }
{
    row.counted(number, 5)?;
    let from = City::read(row.field(1)).ok_or(TextFault::BadRecord(number, 2))?;
    let to = City::read(row.field(2)).ok_or(TextFault::BadRecord(number, 3))?;
    let ind = Indicator::read(row.field(3)).ok_or(TextFault::BadRecord(number, 4))?;
    let miles = read_number(row.field(4), MOST_MILES).ok_or(TextFault::BadRecord(number, 5))?;
    Ok(MileRec {
        from,
        to,
        ind,
        miles,
    })
}

/// A TPM record.
#[tactic(auto, unfolding(crate::specs::RecordText::pair_of))]
pub(crate) fn read_pair(row: &FieldList, number: u32) -> Result<PairRec, TextFault>
    ensures { result ≡ pair_of number row.now }
{
    row.counted(number, 4)?;
    let from = City::read(row.field(1)).ok_or(TextFault::BadRecord(number, 2))?;
    let to = City::read(row.field(2)).ok_or(TextFault::BadRecord(number, 3))?;
    let miles = read_number(row.field(3), MOST_MILES).ok_or(TextFault::BadRecord(number, 4))?;
    Ok(PairRec { from, to, miles })
}

/// The via city of an EMA record; empty for every way.
#[tactic(auto, unfolding(crate::specs::RecordText::read_via))]
fn read_via(bytes: &[u8]) -> Option<Option<City>>
    ensures { result ≡ read_via bytes.now }
{
    if bytes.is_empty() {
        return Some(None);
    }
    City::read(bytes).map(Some)
}

/// An EMA record.
#[tactic(auto, unfolding(crate::specs::RecordText::allowance_of))]
pub(crate) fn read_allowance(row: &FieldList, number: u32) -> Result<EmaRec, TextFault>
    ensures { result ≡ allowance_of number row.now }
{
    row.counted(number, 6)?;
    let from = City::read(row.field(1)).ok_or(TextFault::BadRecord(number, 2))?;
    let to = City::read(row.field(2)).ok_or(TextFault::BadRecord(number, 3))?;
    let ind = Indicator::read(row.field(3)).ok_or(TextFault::BadRecord(number, 4))?;
    let via = read_via(row.field(4)).ok_or(TextFault::BadRecord(number, 5))?;
    let miles = read_number(row.field(5), MOST_MILES).ok_or(TextFault::BadRecord(number, 6))?;
    Ok(EmaRec {
        from,
        to,
        ind,
        via,
        miles,
    })
}
