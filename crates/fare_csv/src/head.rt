//! The first record of a text.

ghost use Rattle.std.specs.Prelude.{◌≡◌, ◌<◌, ◌≤◌, IfOk};
ghost use Rattle.fare_csv.specs.Head.{head_of, read_version};

use crate::numbers::read_edition_number;
use crate::read_plain::counted;
use crate::rows::Row;
use crate::text_fault::TextFault;
use fare_codes::{Day, LAST_EDITION};

/// How the fares of a text are spelled.
#[derive(Clone, Copy, Debug, PartialEq, Eq)]
pub enum Version {
    /// Without a season: each fare is filed for the whole year.
    One,
    /// With the first and the last day of its season.
    Two,
}

/// What the first record of a text says.
#[derive(Clone, Copy, Debug)]
pub struct Head {
    /// How the fares behind it are spelled.
    pub version: Version,
    /// The number of the edition, 1 to 99,999.
    pub number: u32,
    /// The day from which the edition may be selected.
    pub effective: Day,
}

/// The version that a field of HEAD spells; nothing where it spells none.
#[tactic(auto, unfolding(crate::specs::Head::read_version))]
pub fn read_version(bytes: &[u8]) -> Option<Version>
    ensures { result ≡ read_version bytes.now }
{
    match bytes {
        b"1" => Some(Version::One),
        b"2" => Some(Version::Two),
        _ => None,
    }
}

/// The HEAD record of a row that begins with `HEAD`.
#[tactic(auto, unfolding(crate::specs::Head::head_of))]
pub fn read_head(row: &Row) -> Result<Head, TextFault>
    ensures value { result ≡ head_of row.now }
    ensures range { IfOk result (λ head. (0 < head.number) × (head.number ≤ LAST_EDITION)) }
{
    counted(row, 1, 4)?;
    let version = read_version(row.field(1)).ok_or(TextFault::BadRecord(1, 2))?;
    let number = read_edition_number(row.field(2)).ok_or(TextFault::BadRecord(1, 3))?;
    let effective = Day::read(row.field(3)).ok_or(TextFault::BadRecord(1, 4))?;
    Ok(Head {
        version,
        number,
        effective,
    })
}
