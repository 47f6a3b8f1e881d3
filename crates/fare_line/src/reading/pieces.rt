//! The pieces of a line at the front of a text: sectors, prices of parts, gaps, plus-ups and the end.

ghost use Rattle.std.specs.Prelude.{false};
ghost use Rattle.fare_line.specs.reader.Reading.{Gives, either};
ghost use Rattle.fare_line.specs.reader.Pieces.{gap_at, plus_at, price_at, sector_at, sector_to, totals_at};
ghost use Rattle.fare_line.specs.reader.Pieces.{transfer_to};

use crate::line::part::LinePart;
use crate::line::plus_up::PlusUp;
use crate::line::sector::LineSector;
use crate::reading::byte_kind::ByteKind;
use crate::reading::cursor::Cursor;
use fare_codes::{Carrier, City};

/// A piece of a line's text behind its first city.
#[derive(Clone, Copy, Debug)]
pub(crate) enum Piece {
    /// A flown sector.
    Sector(LineSector),
    /// What stands behind the sectors of a part.
    Part(LinePart),
    /// The city to which a surface sector leads.
    Gap(City),
    /// A plus-up.
    Plus(PlusUp),
    /// The total and the rate, which end the line.
    End(Totals),
}

/// The total in hundredths of a NUC, and the rate of exchange in millionths.
#[derive(Clone, Copy, Debug)]
pub(crate) struct Totals {
    pub(crate) total: u64,
    pub(crate) roe: u64,
}

impl Cursor<'_> {
    /// A sector of a carrier, to a city that is a transfer or none.
    #[tactic(auto, unfolding(crate::specs::reader::Pieces::sector_to))]
    fn sector_to(&mut self, carrier: Carrier, transfer: bool) -> Result<LineSector, usize>
        ensures { Gives result self.new.rest.now (sector_to carrier transfer self.old.rest.now) }
    {
        let to = self.spaced_city()?;
        Ok(LineSector {
            carrier,
            transfer,
            to,
        })
    }

    /// A sector of a carrier to a transfer.
    #[tactic(auto, unfolding(crate::specs::reader::Pieces::transfer_to))]
    fn transfer_to(&mut self, carrier: Carrier) -> Result<LineSector, usize>
        ensures { Gives result self.new.rest.now (transfer_to carrier self.old.rest.now) }
    {
        self.word(b"X/")?;
        self.sector_to(carrier, true)
    }

    /// A sector of a carrier.
    fn sector_of(&mut self, carrier: Carrier) -> Result<LineSector, usize>
        ensures { Gives result self.new.rest.now
            (either (transfer_to carrier self.old.rest.now) (sector_to carrier false self.old.rest.now)) }
    {
        self.either(
            |cursor| cursor.transfer_to(carrier),
            |cursor| cursor.sector_to(carrier, false),
        )
    }

    /// A sector.
    #[tactic(auto, unfolding(crate::specs::reader::Pieces::sector_at))]
    pub(crate) fn sector(&mut self) -> Result<LineSector, usize>
        ensures { Gives result self.new.rest.now (sector_at self.old.rest.now) }
    {
        let carrier = self.carrier()?;
        self.byte(ByteKind::This(b' '))?;
        self.sector_of(carrier)
    }

    /// What stands behind the sectors of a part that ends with the sector of a number, behind a gap or none.
    #[tactic(auto, unfolding(crate::specs::reader::Pieces::price_at))]
    pub(crate) fn price(&mut self, end: u8, gap: Option<City>) -> Result<LinePart, usize>
        ensures { Gives result self.new.rest.now (price_at end gap self.old.rest.now) }
    {
        let mark = self.mark()?;
        self.byte(ByteKind::This(b' '))?;
        let tag = self.tag()?;
        let unit = self.unit()?;
        Ok(LinePart {
            end,
            letter: mark.letter,
            pair: mark.pair,
            amount: mark.amount,
            carrier: tag.carrier,
            class: tag.class,
            kind: tag.kind,
            rule: tag.rule,
            unit,
            gap,
        })
    }

    /// A gap.
    #[tactic(auto, unfolding(crate::specs::reader::Pieces::gap_at))]
    pub(crate) fn gap(&mut self) -> Result<City, usize>
        ensures { Gives result self.new.rest.now (gap_at self.old.rest.now) }
    {
        self.word(b"// ")?;
        self.spaced_city()
    }

    /// A plus-up.
    #[tactic(auto, unfolding(crate::specs::reader::Pieces::plus_at))]
    pub(crate) fn plus_up(&mut self) -> Result<PlusUp, usize>
        ensures { Gives result self.new.rest.now (plus_at self.old.rest.now) }
    {
        self.word(b"P/")?;
        let unit = self.unit()?;
        let amount = self.amount()?;
        self.byte(ByteKind::This(b' '))?;
        Ok(PlusUp { unit, amount })
    }

    /// The total and the rate.
    #[tactic(auto, unfolding(crate::specs::reader::Pieces::totals_at))]
    pub(crate) fn totals(&mut self) -> Result<Totals, usize>
        ensures { Gives result self.new.rest.now (totals_at self.old.rest.now) }
    {
        self.word(b"NUC")?;
        let total = self.amount()?;
        self.word(b"END ROE")?;
        let roe = self.rate()?;
        Ok(Totals { total, roe })
    }
}
