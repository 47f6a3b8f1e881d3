//! Two seasons beside one another.

ghost use Rattle.std.specs.Prelude.{◌≡◌, IsTrue};
ghost use Rattle.fare_records.specs.Seasons.{seasons_overlap, ShareADay};

use fare_codes::Season;

/// Whether one of two seasons holds the other's first day.
pub fn seasons_overlap(a: &Season, b: &Season) -> bool
    ensures { result ≡ seasons_overlap a.now b.now }
{
    a.holds(b.first) || b.holds(a.first)
}

/// The test by which two fares overlap is true exactly where some day of the year lies in both seasons.
pub fn overlap_is_a_shared_day(a: Season, b: Season)
    ensures shared { IsTrue (seasons_overlap a b) → ShareADay a b }
    ensures found { ShareADay a b → IsTrue (seasons_overlap a b) }
{
    let _ = a.first.text();
    let _ = b.first.text();
}
