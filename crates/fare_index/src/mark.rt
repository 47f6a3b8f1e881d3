//! A number for each kind of key and indicator.

ghost use Rattle.std.specs.Prelude.{◌≡◌, ◌<◌};
ghost use Rattle.fare_index.specs.Mark.{indicator_mark, mark};

use crate::key::Key;
use fare_codes::Indicator;

/// A number for each indicator.
fn indicator_mark(ind: Indicator) -> u64
    ensures mark { result ≡ indicator_mark ind }
    ensures small { result < 5 }
{
    match ind {
        Indicator::WH => 0,
        Indicator::EH => 1,
        Indicator::AT => 2,
        Indicator::PA => 3,
        Indicator::AP => 4,
    }
}

/// A number for each kind of key and indicator; the numbers of one kind are all below or all above those of another.
pub(crate) fn mark(key: &Key) -> u64
    ensures { result ≡ mark key.now }
{
    match key {
        Key::Fares(_, _, ind) => indicator_mark(*ind),
        Key::City(_) => 5,
        Key::Currency(_) => 6,
        Key::Rule(_) => 7,
        Key::Permitted(_, _, ind) => 8 + indicator_mark(*ind),
        Key::Ticketed(_, _) => 16,
        Key::Extra(_, _, ind, _) => 24 + indicator_mark(*ind),
    }
}
