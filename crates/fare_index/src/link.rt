//! A place of a list, or nothing, in the four bytes that a list of many of them asks for.

ghost use Rattle.std.specs.Prelude.{◌≡◌, ◌<◌};
ghost use Rattle.fare_index.specs.Link.{number_of};

use std::marker::Model;

/// A place of a list, or nothing. It is seen as that option.
#[derive(Clone, Copy)]
pub(crate) struct Link {
    number: u32,
}

impl Model for Link {
    ghost use Rattle.std.specs.Prelude.{ℕ, Option};
    ghost use Rattle.fare_index.specs.Link.{linked, number_of, number_of-linked};

    ghost Value = { Option ℕ };

    ghost view = { λ l. linked l.number };

    ghost inverse = { λ place. record { number = number_of place } };

    ghost inverse_ok = { λ l h i. record { number = number_of-linked l.number i } };
}

impl Link {
    /// The link to nothing.
    pub(crate) fn none() -> Link
        ensures { result ≡ None }
    {
        Link { number: 0 }
    }

    /// The link to a place.
    pub(crate) fn to(place: u32) -> Link
        requires { place < u32.MAX }
        ensures { result ≡ Some place }
    {
        Link { number: place + 1 }
    }

    /// 0 where it leads to nothing, and else the number behind the place.
    pub(crate) fn number(self) -> usize
        ensures { result ≡ number_of self }
    {
        self.number as usize
    }

    /// The place that it leads to, if it leads to one.
    pub(crate) fn place(self) -> Option<u32>
        ensures { result ≡ self }
    {
        self.number.checked_sub(1)
    }
}
