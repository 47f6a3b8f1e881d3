//! The days of a drill.

ghost use Rattle.std.specs.Prelude.{◌≡◌, codes};

use fare_codes::Day;

/// The day on which the edition becomes effective, and on which the trip is sold.
#[tactic(auto, unfolding(fare_codes::specs::Day::has_day_shape, fare_codes::specs::Day::is_civil))]
pub(crate) fn sale_day() -> Day
    ensures { result ≡ codes "2025-01-01" }
{
    Day::read(b"2025-01-01").unwrap()
}

/// The day on which all sectors are flown.
#[tactic(auto, unfolding(fare_codes::specs::Day::has_day_shape, fare_codes::specs::Day::is_civil))]
pub(crate) fn travel_day() -> Day
    ensures { result ≡ codes "2025-02-01" }
{
    Day::read(b"2025-02-01").unwrap()
}
