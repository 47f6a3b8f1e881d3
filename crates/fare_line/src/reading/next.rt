//! The piece that stands next behind the pieces of a draft.

ghost use Rattle.std.specs.Prelude.{◌-◌, nat_lt, if◌then◌else◌};
ghost use Rattle.fare_line.specs.reader.Reading.{Gives};
ghost use Rattle.fare_line.specs.reader.Draft.{between_at, closing_at, count, end_piece, further_at, gap_piece};
ghost use Rattle.fare_line.specs.reader.Draft.{part_piece, piece_at, plus_piece, sector_piece, within_at};

use crate::line::Line;
use crate::reading::cursor::Cursor;
use crate::reading::draft::Draft;
use crate::reading::pieces::Piece;
use fare_codes::MOST_SECTORS;

impl Cursor<'_> {
    /// A sector as a piece.
    fn sector_piece(&mut self) -> Result<Piece, usize>
        ensures { Gives result self.new.rest.now (sector_piece self.old.rest.now) }
    {
        let sector = self.sector()?;
        Ok(Piece::Sector(sector))
    }

    /// What ends the part at hand.
    fn part_piece(&mut self, draft: &Draft) -> Result<Piece, usize>
        ensures { Gives result self.new.rest.now (part_piece draft.now self.old.rest.now) }
    {
        let part = self.price(draft.count(), draft.gap())?;
        Ok(Piece::Part(part))
    }

    /// A gap as a piece.
    fn gap_piece(&mut self) -> Result<Piece, usize>
        ensures { Gives result self.new.rest.now (gap_piece self.old.rest.now) }
    {
        let city = self.gap()?;
        Ok(Piece::Gap(city))
    }

    /// A plus-up as a piece.
    fn plus_piece(&mut self) -> Result<Piece, usize>
        ensures { Gives result self.new.rest.now (plus_piece self.old.rest.now) }
    {
        let plus = self.plus_up()?;
        Ok(Piece::Plus(plus))
    }

    /// The end as a piece.
    fn end_piece(&mut self) -> Result<Piece, usize>
        ensures { Gives result self.new.rest.now (end_piece self.old.rest.now) }
    {
        let totals = self.totals()?;
        Ok(Piece::End(totals))
    }

    /// Behind a sector: another one, where there is room, or the price of the part.
    #[tactic(auto, unfolding(crate::specs::reader::Draft::within_at))]
    fn within(&mut self, draft: &Draft) -> Result<Piece, usize>
        ensures { Gives result self.new.rest.now (within_at draft.now self.old.rest.now) }
    {
        if draft.count() as usize >= MOST_SECTORS {
            return self.part_piece(draft);
        }
        self.either(
            |cursor| cursor.sector_piece(),
            |cursor| cursor.part_piece(draft),
        )
    }

    /// Behind the parts: a plus-up, where there is room, or the end.
    #[tactic(auto, unfolding(crate::specs::reader::Draft::closing_at))]
    fn closing(&mut self, draft: &Draft) -> Result<Piece, usize>
        ensures { Gives result self.new.rest.now (closing_at draft.now self.old.rest.now) }
    {
        if draft.plus_count() >= MOST_SECTORS {
            return self.end_piece();
        }
        self.either(|cursor| cursor.plus_piece(), |cursor| cursor.end_piece())
    }

    /// How a further part begins.
    #[tactic(auto, unfolding(crate::specs::reader::Draft::further_at))]
    fn further(&mut self) -> Result<Piece, usize>
        ensures { Gives result self.new.rest.now (further_at self.old.rest.now) }
    {
        self.either(|cursor| cursor.sector_piece(), |cursor| cursor.gap_piece())
    }

    /// How a further part begins, with as many sectors as there is room for.
    fn begins(&mut self, draft: &Draft) -> Result<Piece, usize>
        ensures { Gives result self.new.rest.now
            (if nat_lt (count draft.now) (MOST_SECTORS - 1) then further_at self.old.rest.now
            else sector_piece self.old.rest.now) }
    {
        if (draft.count() as usize) < MOST_SECTORS - 1 {
            self.further()
        } else {
            self.sector_piece()
        }
    }

    /// Behind a part: a further part, where there is room, a plus-up or the end.
    #[tactic(auto, unfolding(crate::specs::reader::Draft::between_at))]
    fn between(&mut self, draft: &Draft) -> Result<Piece, usize>
        ensures { Gives result self.new.rest.now (between_at draft.now self.old.rest.now) }
    {
        if draft.count() as usize >= MOST_SECTORS {
            return self.closing(draft);
        }
        self.either(
            |cursor| cursor.begins(draft),
            |cursor| cursor.closing(draft),
        )
    }

    /// The piece that stands next.
    #[tactic(auto, unfolding(crate::specs::reader::Draft::piece_at))]
    pub(crate) fn piece(&mut self, draft: &Draft) -> Result<Piece, usize>
        ensures { Gives result self.new.rest.now (piece_at draft.now self.old.rest.now) }
    {
        if draft.has_sector() {
            return self.within(draft);
        }
        if draft.is_begun() {
            return self.sector_piece();
        }
        if draft.plus_count() > 0 {
            return self.closing(draft);
        }
        self.between(draft)
    }
}
