//! What is known of one reference, in four bytes: a form has hundreds of them, and there are dozens of forms.

ghost use Rattle.std.specs.Prelude.{◌≡◌, ◌<◌, Some, IfSome};
ghost use Rattle.fare_component.specs.References.{found_of, nothing};

use fare_codes::FARE_LIMIT;

/// The number of a reference that wasn't looked up.
const NOT_LOOKED_UP: u32 = 0;

/// The number of a reference that was looked up and that there isn't.
const NO_REFERENCE: u32 = 1;

/// The number of a reference of nothing; that of another is greater by its hundredths.
const LEAST_REFERENCE: u32 = 2;

/// What is known of the reference between two points: nothing yet, or what was found. A contract sees it by `found_of`.
#[derive(Clone, Copy)]
pub(crate) struct Known {
    pub(crate) number: u32,
}

impl Known {
    /// Nothing yet.
    pub(crate) fn nothing() -> Known
        ensures { result ≡ nothing }
    {
        Known {
            number: NOT_LOOKED_UP,
        }
    }

    /// What was found, in hundredths.
    pub(crate) fn of(found: Option<u64>) -> Known
        requires { IfSome found (λ amount. amount < FARE_LIMIT) }
        ensures { found_of result ≡ Some found }
    {
        match found {
            None => Known {
                number: NO_REFERENCE,
            },
            Some(hundredths) => Known {
                number: hundredths as u32 + LEAST_REFERENCE,
            },
        }
    }

    /// What was found, in hundredths, where it was looked up.
    pub(crate) fn found(self) -> Option<Option<u64>>
        ensures { result ≡ found_of self }
    {
        if self.number == NOT_LOOKED_UP {
            return None;
        }
        if self.number == NO_REFERENCE {
            return Some(None);
        }
        Some(Some((self.number - LEAST_REFERENCE) as u64))
    }
}
