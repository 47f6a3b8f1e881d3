//! A line that is made piece by piece.

ghost use Rattle.std.specs.Prelude.{◌≡◌, ◌<◌, ◌≤◌, ◌==◌, ◌||◌, true, length, is_some, nat_lt};
ghost use Rattle.fare_line.specs.reader.Draft.{Allowed, IsDraft, count, ended, start, with_piece};
ghost use Rattle.fare_line.specs.declared.reading.pieces.Piece.TheVariants as piece;

use crate::line::Line;
use crate::line::part::LinePart;
use crate::line::plus_up::PlusUp;
use crate::line::sector::LineSector;
use crate::reading::pieces::{Piece, Totals};
use arrayvec::ArrayVec;
use fare_codes::{City, MOST_SECTORS};
use std::marker::Model;

/// A line as far as its pieces are there.
#[derive(Drop)]
pub(crate) struct Draft {
    from: City,
    sectors: ArrayVec<LineSector, MOST_SECTORS>,
    closed: usize,
    parts: ArrayVec<LinePart, MOST_SECTORS>,
    begun: u8,
    gap: Option<City>,
    plus: ArrayVec<PlusUp, MOST_SECTORS>,
}

impl Model for Draft {
    ghost use Rattle.std.specs.Prelude.{◌≤◌, length, take, drop};
    ghost use Rattle.fare_line.specs.reader.Draft.{DraftLine, IsDraft};

    ghost Value = { DraftLine };

    ghost view = { λ d. record {
      from = d.from;
      closed = take d.closed d.sectors.items;
      parts = d.parts.items;
      begun = d.begun;
      gap = d.gap;
      pending = drop d.closed d.sectors.items;
      plus = d.plus.items;
    } };

    ghost invariant = { λ d. (d.closed ≤ length d.sectors.items) × IsDraft (record {
      from = d.from;
      closed = take d.closed d.sectors.items;
      parts = d.parts.items;
      begun = d.begun;
      gap = d.gap;
      pending = drop d.closed d.sectors.items;
      plus = d.plus.items;
    }) };
}

impl Draft {
    /// A line of which only the first city is there.
    #[tactic(auto, using(crate::proofs::DraftLaws::draft_start))]
    pub(crate) fn new(from: City) -> Draft
        ensures { result ≡ start from }
    {
        let _form = from.text();
        Draft {
            from,
            sectors: ArrayVec::new(),
            closed: 0,
            parts: ArrayVec::new(),
            begun: 0,
            gap: None,
            plus: ArrayVec::new(),
        }
    }

    /// How many sectors are there, gaps counted.
    pub(crate) fn count(&self) -> u8
        ensures value { result ≡ count self.now }
        ensures few { result ≤ MOST_SECTORS }
    {
        let gaps = if self.gap.is_some() { 1 } else { 0 };
        self.begun + gaps + (self.sectors.len() - self.closed) as u8
    }

    /// The gap before the part at hand.
    pub(crate) fn gap(&self) -> Option<City>
        ensures { result ≡ self.now.gap }
    {
        self.gap
    }

    /// Whether a sector of the part at hand is there.
    pub(crate) fn has_sector(&self) -> bool
        ensures { result ≡ nat_lt 0 (length self.now.pending) }
    {
        self.closed < self.sectors.len()
    }

    /// Whether a first sector must come, behind the first city or a gap.
    pub(crate) fn is_begun(&self) -> bool
        ensures { result ≡ (is_some self.now.gap || (length self.now.parts == 0)) }
    {
        self.gap.is_some() || self.parts.is_empty()
    }

    /// How many plus-ups are there.
    pub(crate) fn plus_count(&self) -> usize
        ensures { result ≡ length self.now.plus }
    {
        self.plus.len()
    }

    /// What holds of every line as far as its pieces are there.
    pub(crate) fn law(&self)
        ensures { IsDraft self.now }
    {
        let _ = &self.from;
    }

    /// Adds a piece. The end adds nothing.
    pub(crate) fn push(&mut self, piece: Piece)
        requires { Allowed self.old piece }
        ensures { self.new ≡ with_piece self.old piece }
    {
        match piece {
            Piece::Sector(sector) => self.push_sector(sector),
            Piece::Part(part) => self.push_part(part),
            Piece::Gap(city) => self.push_gap(city),
            Piece::Plus(plus) => self.push_plus_up(plus),
            Piece::End(_) => {}
        }
    }

    /// Adds a sector to the part at hand.
    fn push_sector(&mut self, sector: LineSector)
        requires { Allowed self.old (piece.Sector sector) }
        ensures { self.new ≡ with_piece self.old (piece.Sector sector) }
    {
        self.sectors.push(sector);
    }

    /// Ends the part at hand.
    fn push_part(&mut self, part: LinePart)
        requires { Allowed self.old (piece.Part part) }
        ensures { self.new ≡ with_piece self.old (piece.Part part) }
    {
        self.closed = self.sectors.len();
        self.begun = part.end;
        self.gap = None;
        part.push_to(&mut self.parts);
    }

    /// Puts a gap before the next part.
    fn push_gap(&mut self, city: City)
        requires { Allowed self.old (piece.Gap city) }
        ensures { self.new ≡ with_piece self.old (piece.Gap city) }
    {
        self.gap = Some(city);
    }

    /// Adds a plus-up.
    fn push_plus_up(&mut self, plus: PlusUp)
        requires { Allowed self.old (piece.Plus plus) }
        ensures { self.new ≡ with_piece self.old (piece.Plus plus) }
    {
        self.plus.push(plus);
    }

    /// The line with its total and its rate.
    pub(crate) fn finish(self, totals: Totals) -> Line
        requires { Allowed self (piece.End totals) }
        ensures { result ≡ ended self totals }
    {
        let Draft {
            from,
            sectors,
            closed: _,
            parts,
            begun: _,
            gap: _,
            plus,
        } = self;
        Line {
            from,
            sectors,
            parts,
            plus,
            total: totals.total,
            roe: totals.roe,
        }
    }
}
