//! Lists that keep what is found.

ghost use Rattle.std.specs.Prelude.{◌≡◌, ◌++◌, ◌<◌, length};
ghost use Rattle.std.specs.Option.{option_to_list};

use arrayvec::ArrayVec;
use fare_codes::MOST_SECTORS;

/// Puts what was found at the end.
pub(crate) fn keep<T: Default + Drop>(kept: &mut ArrayVec<T, MOST_SECTORS>, found: Option<T>)
    requires { length kept.old.items < MOST_SECTORS }
    ensures { kept.new.items ≡ kept.old.items ++ option_to_list found }
{
    match found {
        None => (),
        Some(one) => kept.push(one),
    }
}
