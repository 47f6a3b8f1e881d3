ghost use Rattle.std.specs.Prelude.{◌≡◌, ◌<◌, ◌≤◌, ℕ, Some, length};
ghost use Rattle.fare_ports.specs.Memory.{Gives};
ghost use Rattle.fare_tariff.specs.Check.{IsEdition, check_edition};
ghost use Rattle.fare_tariff.specs.Filed.{IsFiledFare};
ghost use Rattle.fare_tariff.specs.Lookup.{fare_at};
ghost use Rattle.fare_records.specs.Record.{FareRecord};

use crate::check::{CheckFault, first_fault};
use fare_codes::{Day, LAST_EDITION};
use fare_records::{Filed, MOST_RECORDS, Record};
use std::alloc::Global;
use std::marker::Model;
use std::thread::Threads;

/// A published tariff edition, valid by its type: no record of it has a fault.
#[derive(Drop)]
pub struct Edition {
    number: u32,
    effective: Day,
    filed: Filed,
}

impl Model for Edition {
    ghost use Rattle.fare_tariff.specs.Tariff.{Tariff};
    ghost use Rattle.fare_tariff.specs.Check.{IsEdition};

    ghost Value = { Tariff };

    ghost view = { λ e. record { number = e.number; effective = e.effective; records = e.filed } };

    ghost invariant = { λ e. IsEdition e.number e.filed };
}

impl Edition {
    /// The edition with just these records, or the fault of the least record that has one.
    pub fn check<R: Threads + Sync>(
        rt: &R,
        alloc: Global,
        number: u32,
        effective: Day,
        records: Vec<Record>,
    ) -> Result<Edition, CheckFault>
        requires above_zero { 0 < number }
        requires in_range { number ≤ LAST_EDITION }
        ensures { Gives CheckFault.Memory (λ edition. edition) result (check_edition number effective records.items) }
    {
        let Ok(filed) = Filed::of(rt, alloc, records) else {
            return Err(CheckFault::Memory);
        };
        let _records = filed.records();
        match first_fault(rt, &filed) {
            Some(fault) => Err(fault),
            None => Ok(Edition {
                number,
                effective,
                filed,
            }),
        }
    }

    /// Its number.
    pub fn number(&self) -> u32
        ensures value { result ≡ self.now.number }
        ensures above_zero { 0 < result }
        ensures in_range { result ≤ LAST_EDITION }
    {
        self.number
    }

    /// The day from which it may be selected.
    pub fn effective(&self) -> Day
        ensures { result ≡ self.now.effective }
    {
        self.effective
    }

    /// What holds of each fare of an edition, by its type.
    pub fn fares_are_filed(&self)
        ensures { (number : ℕ) (fare : FareRecord) → fare_at self.now number ≡ Some fare → IsFiledFare self.now fare }
    {
        let _records = self.records();
    }

    /// Its records with the places of their keys.
    #[tactic(auto, using(crate::proofs::Validity::length_in_limit))]
    pub fn filed(&self) -> &Filed
        ensures records { result.now ≡ self.now.records }
        ensures valid { IsEdition self.now.number self.now.records }
        ensures in_limit { length result.now ≤ MOST_RECORDS }
    {
        &self.filed
    }

    /// Its records, of which the first has the record number 2.
    #[tactic(auto, using(crate::proofs::Validity::length_in_limit))]
    pub fn records(&self) -> &[Record]
        ensures records { result.now ≡ self.now.records }
        ensures valid { IsEdition self.now.number self.now.records }
        ensures in_limit { length result.now ≤ MOST_RECORDS }
    {
        self.filed.records()
    }
}
