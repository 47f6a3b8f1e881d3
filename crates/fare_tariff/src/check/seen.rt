//! The records that a walk over a group has passed: how many, and their buckets. Records with one key share a bucket, so
//! one that comes to an empty one has the key of none before it.

ghost use Rattle.std.specs.Prelude.{◌≡◌, ◌<◌, length};
ghost use Rattle.fare_tariff.specs.Seen.{bucket_of, bucket_of_pair, bucket_of_record, class_number, kind_number};
ghost use Rattle.fare_tariff.specs.Seen.{may_clash, noted, none_seen, rule_number};

use fare_codes::{Cabin, Carrier, City, Kind, RuleId};
use fare_records::{FareRec, MOST_FARES_BETWEEN, Record, spelled_city, spelled_rule};

/// How many buckets there are: a prime, so that each character of a rule's id counts.
pub(crate) const BUCKETS: usize = 61;

/// The records that were passed, of which 64 or more count as 64.
#[derive(Drop)]
pub(crate) struct Seen {
    pub(crate) count: usize,
    pub(crate) buckets: [bool; BUCKETS],
}

/// A number below that of the buckets for a rule field.
fn rule_number(rule: &Option<RuleId>) -> u64
    ensures value { result ≡ rule_number rule.now }
    ensures small { result < BUCKETS }
{
    match rule {
        None => 0,
        Some(id) => spelled_rule(*id) % BUCKETS as u64,
    }
}

/// A number for each class.
fn class_number(class: Cabin) -> u64
    ensures value { result ≡ class_number class }
    ensures small { result < BUCKETS }
{
    match class {
        Cabin::F => 0,
        Cabin::C => 16,
        Cabin::Y => 32,
    }
}

/// A number for each kind of fare, and whether it is of every carrier.
fn kind_number(kind: Kind, every: bool) -> u64
    ensures value { result ≡ kind_number kind every }
    ensures small { result < BUCKETS }
{
    match (kind, every) {
        (Kind::OW, true) => 0,
        (Kind::OW, false) => 4,
        (Kind::HR, true) => 8,
        (Kind::HR, false) => 12,
    }
}

/// The bucket of a fare, by its carrier, its class, its kind and its rule.
fn bucket_of(fare: &FareRec) -> usize
    ensures value { result ≡ bucket_of fare.now }
    ensures within { result < BUCKETS }
{
    let every = fare.carrier.is(Carrier::read(b"YY").unwrap());
    let number = rule_number(&fare.rule) + class_number(fare.class) + kind_number(fare.kind, every);
    (number % BUCKETS as u64) as usize
}

/// The bucket of two cities, in either order.
fn bucket_of_pair(a: City, b: City) -> usize
    ensures value { result ≡ bucket_of_pair a b }
    ensures within { result < BUCKETS }
{
    ((spelled_city(a) % BUCKETS as u64 + spelled_city(b) % BUCKETS as u64)
        % BUCKETS as u64) as usize
}

/// The bucket of a record.
#[tactic(auto, using(crate::proofs::Buckets::of_ordered))]
fn bucket_of_record(one: &Record) -> usize
    ensures value { result ≡ bucket_of_record one.now }
    ensures within { result < BUCKETS }
{
    match one {
        Record::City(r) => (spelled_city(r.code) % BUCKETS as u64) as usize,
        Record::Cur(_) => 0,
        Record::Rule(r) => (spelled_rule(r.rule().id) % BUCKETS as u64) as usize,
        Record::Fare(r) => bucket_of(r),
        Record::Mpm(r) => bucket_of_pair(r.from, r.to),
        Record::Tpm(r) => bucket_of_pair(r.from, r.to),
        Record::Ema(r) => bucket_of_pair(r.from, r.to),
    }
}

impl Seen {
    /// None was passed.
    pub(crate) fn new() -> Seen
        ensures { result ≡ none_seen }
    {
        Seen {
            count: 0,
            buckets: [false; BUCKETS],
        }
    }

    /// Whether a record may clash with those that were passed: one in its bucket was, or, of a fare, as many as there may
    /// be.
    pub(crate) fn may_clash(&self, one: &Record) -> bool
        requires { length self.now.buckets ≡ BUCKETS }
        ensures { result ≡ may_clash self.now one.now }
    {
        if self.count == 0 {
            return false;
        }
        match one {
            Record::Fare(fare) => self.count >= MOST_FARES_BETWEEN || self.buckets[bucket_of(fare)],
            _ => self.buckets[bucket_of_record(one)],
        }
    }

    /// Passes a record.
    pub(crate) fn note(&mut self, one: &Record)
        requires { length self.old.buckets ≡ BUCKETS }
        ensures { self.new ≡ noted self.old one.now }
    {
        if self.count < MOST_FARES_BETWEEN {
            self.count += 1;
        }
        self.buckets[bucket_of_record(one)] = true;
    }
}
