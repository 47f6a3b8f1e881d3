//! A calculation line: its sectors, its parts and its plus-ups.

ghost use Rattle.std.specs.Prelude.{◌≡◌, true};
ghost use Rattle.fare_line.specs.Line.{is_line};

pub(crate) mod part;
pub(crate) mod plus_up;
pub(crate) mod sector;

use crate::line::part::LinePart;
use crate::line::plus_up::PlusUp;
use crate::line::sector::LineSector;
use arrayvec::ArrayVec;
use fare_codes::{City, MOST_SECTORS};
use std::marker::Model;

/// A calculation line. By its type it is one that some text spells: it has a part, each part has a flown sector, it has
/// at most `MOST_SECTORS` sectors, gaps counted, and each code, amount and number is in its form.
#[derive(Drop)]
pub struct Line {
    /// The city where it begins.
    pub from: City,
    /// Its flown sectors.
    pub sectors: ArrayVec<LineSector, MOST_SECTORS>,
    /// Its parts.
    pub parts: ArrayVec<LinePart, MOST_SECTORS>,
    /// Its plus-ups.
    pub plus: ArrayVec<PlusUp, MOST_SECTORS>,
    /// Its total in hundredths of a NUC.
    pub total: u64,
    /// The rate of exchange, in millionths.
    pub roe: u64,
}

impl Model for Line {
    ghost use Rattle.std.specs.Prelude.{◌≡◌, true};
    ghost use Rattle.fare_line.specs.Line.{CalculationLine, is_line};

    ghost Value = { CalculationLine };

    ghost view = { λ l. record {
      from = l.from;
      sectors = l.sectors.items;
      parts = l.parts.items;
      plus = l.plus.items;
      total = l.total;
      roe = l.roe;
    } };

    ghost invariant = { λ l. is_line (record {
      from = l.from;
      sectors = l.sectors.items;
      parts = l.parts.items;
      plus = l.plus.items;
      total = l.total;
      roe = l.roe;
    })
        ≡ true };
}

impl Line {
    /// What holds of every line: some text spells it.
    pub fn law(&self)
        ensures { is_line self.now ≡ true }
    {
        let _ = &self.from;
    }
}
