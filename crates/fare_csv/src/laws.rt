//! What holds of every edition, with no memory taken: its canonical text is read back as the edition. Each function
//! here gives the law of one kind of record; running it changes nothing.

ghost use Rattle.std.specs.Prelude.{◌≡◌, true, Ok};
ghost use Rattle.std.specs.List.{All, list_all};
ghost use Rattle.fare_records.specs.declared.record.Record.TheVariants as filed;
ghost use Rattle.fare_csv.specs.CanonicalText.{canonical_text};
ghost use Rattle.fare_csv.specs.ReadBack.{HeadReadsBack, ReadsBack, are_names, is_name};
ghost use Rattle.fare_csv.specs.TariffText.{edition_of};

use crate::write_record::{fare_rule_text, via_text};
use fare_codes::{RuleId, number_text, rate_text};
use fare_tariff::{
    CityRec, CurRec, Edition, EmaRec, FareRec, MileRec, Names, PairRec, Record, RuleRec,
};

/// HEAD is read back.
fn head_law(edition: &Edition)
    ensures { HeadReadsBack edition.now.number edition.now.effective }
{
    let number = edition.number();
    let effective = edition.effective();
    number_text(number);
    effective.text();
}

/// A CITY is read back.
fn city_law(city: &CityRec)
    ensures { ReadsBack (filed.City city.now) }
{
    let _code = city.code.text();
    let _country = city.country.text();
}

/// A CUR is read back.
fn currency_law(rate: &CurRec)
    ensures { ReadsBack (filed.Cur rate.now) }
{
    let _country = rate.country.text();
    let _currency = rate.currency.text();
    let _roe = rate_text(rate.roe);
    let _decimals = number_text(u32::from(rate.decimals));
    let _unit = number_text(rate.unit);
    let _mode = rate.mode.text();
}

/// An MPM is read back.
fn mileage_law(mileage: &MileRec)
    ensures { ReadsBack (filed.Mpm mileage.now) }
{
    let _from = mileage.from.text();
    let _to = mileage.to.text();
    let _ind = mileage.ind.text();
    let _miles = number_text(mileage.miles);
}

/// A TPM is read back.
fn pair_law(pair: &PairRec)
    ensures { ReadsBack (filed.Tpm pair.now) }
{
    let _from = pair.from.text();
    let _to = pair.to.text();
    let _miles = number_text(pair.miles);
}

/// An EMA is read back.
fn allowance_law(allowance: &EmaRec)
    ensures { ReadsBack (filed.Ema allowance.now) }
{
    let _from = allowance.from.text();
    let _to = allowance.to.text();
    let _ind = allowance.ind.text();
    let _via = via_text(allowance.via);
    let _miles = number_text(allowance.miles);
}

/// A FARE is read back.
fn fare_law(fare: &FareRec)
    ensures { ReadsBack (filed.Fare fare.now) }
{
    let _from = fare.from.text();
    let _to = fare.to.text();
    let _ind = fare.ind.text();
    let _carrier = fare.carrier.text();
    let _class = fare.class.text();
    let _kind = fare.kind.text();
    let _rule = fare_rule_text(fare.rule);
    let _first = fare.season.first.text();
    let _last = fare.season.last.text();
    let _amount = fare.amount.text();
}

/// A name of a list is in its form.
fn name_law(name: Option<RuleId>)
    ensures { is_name name ≡ true }
{
    if let Some(id) = name {
        id.text();
    }
}

/// Names are in their form.
fn list_law(names: &[Option<RuleId>])
    ensures { list_all is_name names.now ≡ true }
{
    for i in 0..names.len() {
        name_law(names[i]);
    }
}

/// The names of a list are in their form.
fn names_law(names: &Names)
    ensures { are_names names.now ≡ true }
{
    match names {
        Names::All => {}
        Names::Of(list) => list_law(list.names()),
    }
}

/// A RULE is read back.
fn rule_law(rule: &RuleRec)
    ensures { ReadsBack (filed.Rule rule.now) }
{
    let _id = rule.id.text();
    let _stops = number_text(rule.stops);
    let _transfers = number_text(rule.transfers);
    let _advance = number_text(rule.advance);
    let _min_stay = number_text(rule.min_stay);
    let _max_stay = number_text(rule.max_stay);
    names_law(&rule.units);
    names_law(&rule.ends);
}

/// A record is read back, whatever its kind.
fn record_law(one: &Record)
    ensures { ReadsBack one.now }
{
    match one {
        Record::City(city) => city_law(city),
        Record::Cur(currency) => currency_law(currency),
        Record::Rule(filed) => rule_law(filed.rule()),
        Record::Fare(fare) => fare_law(fare),
        Record::Mpm(mileage) => mileage_law(mileage),
        Record::Tpm(pair) => pair_law(pair),
        Record::Ema(allowance) => allowance_law(allowance),
    }
}

/// Each record is read back.
fn records_law(records: &[Record])
    ensures { All ReadsBack records.now }
{
    for record in records {
        record_law(record);
    }
}

/// The canonical text of an edition is read back as the edition.
pub fn text_reads_back(edition: &Edition)
    ensures { edition_of (canonical_text edition.now) ≡ Ok edition.now }
{
    head_law(edition);
    records_law(edition.records());
}

/// No two editions have one text.
pub fn text_tells(one: &Edition, other: &Edition)
    ensures { canonical_text one.now ≡ canonical_text other.now → one.now ≡ other.now }
{
    text_reads_back(one);
    text_reads_back(other);
}
