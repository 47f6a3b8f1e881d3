//! The codes that stand in texts, each Bad where the text is not in its form.

ghost use Rattle.std.specs.Prelude.{◌≡◌};
ghost use Rattle.fare_codes.specs.Codes.{read_city, read_carrier};
ghost use Rattle.fare_codes.specs.Day.{read_day};
ghost use Rattle.fare_codes.specs.Words.{read_cabin};
ghost use Rattle.fare_trip.specs.Steps.{or_bad};

use crate::fault::{Member, TripFault};
use fare_codes::{Cabin, Carrier, City, Day};

/// The city of a text.
pub(crate) fn city_in(text: &[u8], member: Member, number: u32) -> Result<City, TripFault>
    ensures { result ≡ or_bad member number (read_city text.now) }
{
    City::read(text).ok_or(TripFault::Bad(member, number))
}

/// The carrier of a text.
pub(crate) fn carrier_in(text: &[u8], number: u32) -> Result<Carrier, TripFault>
    ensures { result ≡ or_bad Member.Carrier number (read_carrier text.now) }
{
    Carrier::read(text).ok_or(TripFault::Bad(Member::Carrier, number))
}

/// The day of a text.
pub(crate) fn day_in(text: &[u8], member: Member, number: u32) -> Result<Day, TripFault>
    ensures { result ≡ or_bad member number (read_day text.now) }
{
    Day::read(text).ok_or(TripFault::Bad(member, number))
}

/// The cabin of a text.
pub(crate) fn cabin_in(text: &[u8], number: u32) -> Result<Cabin, TripFault>
    ensures { result ≡ or_bad Member.Cabin number (read_cabin text.now) }
{
    Cabin::read(text).ok_or(TripFault::Bad(Member::Cabin, number))
}
