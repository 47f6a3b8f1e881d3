ghost use Rattle.std.specs.Prelude.{◌≡◌, ◌↔◌, ℕ, List, true, IsTrue};
ghost use Rattle.fare_codes.specs.Day.{is_month_day};
ghost use Rattle.fare_codes.specs.Same.{same_season};
ghost use Rattle.fare_codes.specs.Season.{season_holds, whole_year};

use crate::month_day::MonthDay;

/// The part of each year for which a fare is filed: from its first day to its last, over the year's end where the
/// first is after the last.
#[derive(Clone, Copy, Debug, PartialEq, Eq, Hash)]
pub struct Season {
    /// The first day that the season holds.
    pub first: MonthDay,
    /// The last day that the season holds.
    pub last: MonthDay,
}

impl Season {
    /// `01-01` to `12-31`, which holds each day of the year.
    #[tactic(auto, using(crate::proofs::SeasonLemmas::whole_year_holds), unfolding(crate::specs::Day::has_month_day_shape))]
    pub fn whole_year() -> Season
        ensures value { result ≡ whole_year }
        ensures each_day { (on : List ℕ) → is_month_day on ≡ true → season_holds result on ≡ true }
    {
        Season {
            first: MonthDay::from_bytes(b"01-01"),
            last: MonthDay::from_bytes(b"12-31"),
        }
    }

    /// Whether the season holds the day of the year. Most hold each, which is seen at once.
    #[tactic(auto, using(crate::proofs::SeasonLemmas::held_all_year))]
    pub fn holds(self, on: MonthDay) -> bool
        ensures { result ≡ season_holds self on }
    {
        is_whole_year(&self) || holds_between(&self, on)
    }

    /// Whether both have the same first and last day.
    pub fn is(self, other: Season) -> bool
        ensures same { IsTrue result ↔ (self ≡ other) }
        ensures test { result ≡ same_season self other }
    {
        self.first.is(other.first) && self.last.is(other.last)
    }
}

/// Whether a season is the whole year.
fn is_whole_year(season: &Season) -> bool
    ensures { IsTrue result → season.now ≡ whole_year }
{
    season.is(Season::whole_year())
}

/// Whether a season holds the day of the year, by the places of its first day and its last.
#[tactic(auto, unfolding(crate::specs::Season::season_holds))]
fn holds_between(season: &Season, on: MonthDay) -> bool
    ensures { result ≡ season_holds season.now on }
{
    let first = season.first.place();
    let last = season.last.place();
    let day = on.place();
    if first <= last {
        first <= day && day <= last
    } else {
        first <= day || day <= last
    }
}
