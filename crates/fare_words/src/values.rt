//! Each option by its own name.

ghost use Rattle.std.specs.Prelude.{◌≡◌, IfSome};
ghost use Rattle.fare_words.specs.Limits.{IsBetween};
ghost use Rattle.fare_words.specs.Values.{asked_by, asked_in, best_in, count_in, edition_in, extra_in, from_in};
ghost use Rattle.fare_words.specs.Values.{json_in};
ghost use Rattle.fare_words.specs.Values.{port_in, round_in, sectors_in, seed_in, store_in, to_in, workers_in};
ghost use Rattle.fare_words.specs.WithinLimits.{IsFew};

use crate::asked::Asked;
use crate::limits::{DEFAULT_EXTRA, DEFAULT_ROUND, DEFAULT_WORKERS, MOST_COUNT, MOST_PORT};
use crate::numbers::number_between;
use crate::options::Options;
use crate::store_name::StoreName;
use fare_codes::{LAST_EDITION, LAST_SEED, MOST_BEST, MOST_EXTRA, MOST_SECTORS, MOST_WORKERS};
use fare_ports::MOST_HELD;

/// The store.
#[tactic(auto, unfolding(crate::specs::Values::store_in))]
pub(crate) fn store<'a>(options: &Options<'a>) -> Option<StoreName<'a>>
    ensures { result ≡ store_in options.now }
{
    match options.text("store") {
        Some(text) => StoreName::read(text),
        None => None,
    }
}

/// How many workers share a search.
#[tactic(auto, unfolding(crate::specs::Values::workers_in))]
pub(crate) fn workers(options: &Options<'_>) -> Option<u32>
    ensures value { result ≡ workers_in options.now }
    ensures limits { IfSome result (IsBetween 1 MOST_WORKERS) }
{
    options.number_or("workers", 1, MOST_WORKERS, DEFAULT_WORKERS)
}

/// How many of the best quotations are asked for, where any number is.
#[tactic(auto, unfolding(crate::specs::Values::best_in))]
fn best(options: &Options<'_>) -> Option<Option<u32>>
    ensures value { result ≡ best_in options.now }
    ensures limits { IfSome result (λ asked. IfSome asked (IsBetween 1 MOST_BEST)) }
{
    match options.text("best") {
        Some(text) => number_between(text, 1, MOST_BEST as u32).map(Some),
        None => Some(None),
    }
}

/// What is asked of a trip; nothing where `--why` and `--best` both stand.
#[tactic(auto, unfolding(crate::specs::Values::asked_in))]
pub(crate) fn asked(options: &Options<'_>) -> Option<Asked>
    ensures value { result ≡ asked_in options.now }
    ensures limits { IfSome result IsFew }
{
    let best = best(options)?;
    asked_by(options.flag("why"), best)
}

/// What the flag and the number ask of a trip.
#[tactic(auto, unfolding(crate::specs::Values::asked_by, crate::specs::WithinLimits::IsFew))]
fn asked_by(why: bool, best: Option<u32>) -> Option<Asked>
    requires { IfSome best (IsBetween 1 MOST_BEST) }
    ensures value { result ≡ asked_by why best }
    ensures limits { IfSome result IsFew }
{
    match (why, best) {
        (true, None) => Some(Asked::Why),
        (true, Some(_)) => None,
        (false, None) => Some(Asked::Quotation),
        (false, Some(k)) => Some(Asked::Best(k)),
    }
}

/// Whether the answer is wanted in JSON.
#[tactic(auto, unfolding(crate::specs::Values::json_in))]
pub(crate) fn json(options: &Options<'_>) -> bool
    ensures { result ≡ json_in options.now }
{
    options.flag("json")
}

/// The number of an edition.
#[tactic(auto, unfolding(crate::specs::Values::edition_in))]
pub(crate) fn edition(options: &Options<'_>) -> Option<u32>
    ensures value { result ≡ edition_in options.now }
    ensures limits { IfSome result (IsBetween 1 LAST_EDITION) }
{
    options.number("edition", 1, LAST_EDITION)
}

/// The number of the edition from which two are compared.
#[tactic(auto, unfolding(crate::specs::Values::from_in))]
pub(crate) fn from(options: &Options<'_>) -> Option<u32>
    ensures value { result ≡ from_in options.now }
    ensures limits { IfSome result (IsBetween 1 LAST_EDITION) }
{
    options.number("from", 1, LAST_EDITION)
}

/// The number of the edition with which it is compared.
#[tactic(auto, unfolding(crate::specs::Values::to_in))]
pub(crate) fn to(options: &Options<'_>) -> Option<u32>
    ensures value { result ≡ to_in options.now }
    ensures limits { IfSome result (IsBetween 1 LAST_EDITION) }
{
    options.number("to", 1, LAST_EDITION)
}

/// The port on which connections come in.
#[tactic(auto, unfolding(crate::specs::Values::port_in))]
pub(crate) fn port(options: &Options<'_>) -> Option<u16>
    ensures value { result ≡ port_in options.now }
    ensures limits { IfSome result (IsBetween 1 MOST_PORT) }
{
    let number = options.number("port", 1, MOST_PORT)?;
    Some(number as u16)
}

/// How many connections are served.
#[tactic(auto, unfolding(crate::specs::Values::count_in))]
pub(crate) fn count(options: &Options<'_>) -> Option<u32>
    ensures value { result ≡ count_in options.now }
    ensures limits { IfSome result (IsBetween 1 MOST_COUNT) }
{
    options.number("count", 1, MOST_COUNT)
}

/// How many connections make a round.
#[tactic(auto, unfolding(crate::specs::Values::round_in))]
pub(crate) fn round(options: &Options<'_>) -> Option<u32>
    ensures value { result ≡ round_in options.now }
    ensures limits { IfSome result (IsBetween 1 MOST_HELD) }
{
    options.number_or("round", 1, MOST_HELD as u32, DEFAULT_ROUND)
}

/// The seed of a drill.
#[tactic(auto, unfolding(crate::specs::Values::seed_in))]
pub(crate) fn seed(options: &Options<'_>) -> Option<u32>
    ensures value { result ≡ seed_in options.now }
    ensures limits { IfSome result (IsBetween 0 LAST_SEED) }
{
    options.number("seed", 0, LAST_SEED)
}

/// How many sectors a drill has.
#[tactic(auto, unfolding(crate::specs::Values::sectors_in))]
pub(crate) fn sectors(options: &Options<'_>) -> Option<u32>
    ensures value { result ≡ sectors_in options.now }
    ensures limits { IfSome result (IsBetween 1 MOST_SECTORS) }
{
    options.number("sectors", 1, MOST_SECTORS as u32)
}

/// How many extra records a drill has.
#[tactic(auto, unfolding(crate::specs::Values::extra_in))]
pub(crate) fn extra(options: &Options<'_>) -> Option<u32>
    ensures value { result ≡ extra_in options.now }
    ensures limits { IfSome result (IsBetween 0 MOST_EXTRA) }
{
    options.number_or("extra", 0, MOST_EXTRA, DEFAULT_EXTRA)
}
