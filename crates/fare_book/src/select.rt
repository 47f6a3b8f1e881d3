//! The edition that a day selects.

ghost use Rattle.std.specs.Prelude.{◌≡◌};
ghost use Rattle.std.specs.Option.{option_copied};
ghost use Rattle.fare_book.specs.Selected.{selected, is_effective_by, is_later, later_of};

use crate::book::Book;
use fare_codes::Day;
use fare_tariff::Edition;

impl Book {
    /// The edition that a day selects: that with the greatest pair of effective day and number among those that are
    /// effective by then; none exactly where no edition is.
    pub fn select(&self, day: Day) -> Option<&Edition>
        ensures { option_copied result ≡ selected self.now.editions day }
    {
        selected(self.editions(), day)
    }
}

/// The edition that a day selects among some.
#[tactic(auto, using(crate::proofs::Scans::latest_more, crate::proofs::Scans::latest_all), unfolding(crate::specs::Selected::selected))]
fn selected(editions: &[Edition], day: Day) -> Option<&Edition>
    ensures { option_copied result ≡ selected editions.now day }
{
    let mut best: Option<&Edition> = None;
    for edition in editions {
        if is_effective_by(edition, day) {
            best = Some(later_of(best, edition));
        }
    }
    best
}

/// Whether an edition is effective by a day.
fn is_effective_by(edition: &Edition, day: Day) -> bool
    ensures { result ≡ is_effective_by day edition.now }
{
    edition.effective().number() <= day.number()
}

/// Whether the pair of an edition's effective day and number is greater than another's.
fn is_later(one: &Edition, other: &Edition) -> bool
    ensures { result ≡ is_later one.now other.now }
{
    let day = one.effective().number();
    let other_day = other.effective().number();
    other_day < day || (day == other_day && other.number() < one.number())
}

/// The later of two editions, or the one where there is no other.
fn later_of<'a>(other: Option<&'a Edition>, one: &'a Edition) -> &'a Edition
    ensures { result.now ≡ later_of (option_copied other.entry) one.now }
{
    match other {
        None => one,
        Some(other) => { if is_later(one, other) { one } else { other } }
    }
}
