//! Marks and tags at the front of a text.

ghost use Rattle.std.specs.Prelude.{◌≡◌, ◌≤◌, ◌∷◌, [], true, length, codes, IfOk};
ghost use Rattle.std.specs.List.{list_all};
ghost use Rattle.fare_codes.specs.Codes.{is_code_character};
ghost use Rattle.fare_line.specs.reader.Reading.{Gives, either, one_of};
ghost use Rattle.fare_line.specs.reader.Pieces.{class_at, kind_at, later_classes, later_kinds, later_letters};
ghost use Rattle.fare_line.specs.reader.Pieces.{letter_at, lettered_at, mark_at, paired_at, rule_at, rule_of, tag_at};
ghost use Rattle.fare_line.specs.reader.Pieces.{unpaired_at};

use crate::line::part::Letter;
use crate::reading::cursor::Cursor;
use fare_codes::{Cabin, Carrier, City, Kind, RuleId};

/// The mark of a part: how its amount was found, and the amount in hundredths of a NUC.
#[derive(Clone, Copy, Debug)]
pub(crate) struct Mark {
    pub(crate) letter: Letter,
    pub(crate) pair: Option<(City, City)>,
    pub(crate) amount: u64,
}

/// The tag of a part's fare.
#[derive(Clone, Copy, Debug)]
pub(crate) struct Tag {
    pub(crate) carrier: Carrier,
    pub(crate) class: Cabin,
    pub(crate) kind: Kind,
    pub(crate) rule: Option<RuleId>,
}

/// The letters behind `M`.
const LATER_LETTERS: [&[u8]; 5] = [b"5M", b"10M", b"15M", b"20M", b"25M"];
/// The classes behind `F`.
const LATER_CLASSES: [&[u8]; 2] = [b"C", b"Y"];
/// The kinds behind `OW`.
const LATER_KINDS: [&[u8]; 1] = [b"HR"];

impl Cursor<'_> {
    /// A letter that isn't empty, by its index.
    fn letter_word(&mut self) -> Result<usize, usize>
        ensures reading { Gives result self.new.rest.now (one_of (codes "M") later_letters self.old.rest.now) }
        ensures index { IfOk result (λ i. i ≤ 5) }
    {
        self.one_of(b"M", &LATER_LETTERS)
    }

    /// A letter that isn't empty.
    #[tactic(auto, unfolding(crate::specs::reader::Pieces::letter_at))]
    fn letter(&mut self) -> Result<Letter, usize>
        ensures { Gives result self.new.rest.now (letter_at self.old.rest.now) }
    {
        let found = self.letter_word()?;
        Ok(Letter::Mileage(5 * found as u32))
    }

    /// The amount behind a letter, without a pair.
    #[tactic(auto, unfolding(crate::specs::reader::Pieces::unpaired_at))]
    fn unpaired(&mut self, letter: Letter) -> Result<Mark, usize>
        ensures { Gives result self.new.rest.now (unpaired_at letter self.old.rest.now) }
    {
        let amount = self.amount()?;
        Ok(Mark {
            letter,
            pair: None,
            amount,
        })
    }

    /// The pair and the amount behind a letter.
    #[tactic(auto, unfolding(crate::specs::reader::Pieces::paired_at))]
    fn paired(&mut self, letter: Letter) -> Result<Mark, usize>
        ensures { Gives result self.new.rest.now (paired_at letter self.old.rest.now) }
    {
        let first = self.city()?;
        let second = self.city()?;
        let amount = self.amount()?;
        Ok(Mark {
            letter,
            pair: Some((first, second)),
            amount,
        })
    }

    /// What stands behind a letter.
    fn behind(&mut self, letter: Letter) -> Result<Mark, usize>
        ensures { Gives result self.new.rest.now
            (either (paired_at letter self.old.rest.now) (unpaired_at letter self.old.rest.now)) }
    {
        self.either(
            |cursor| cursor.paired(letter),
            |cursor| cursor.unpaired(letter),
        )
    }

    /// A mark with a letter.
    #[tactic(auto, unfolding(crate::specs::reader::Pieces::lettered_at))]
    fn lettered(&mut self) -> Result<Mark, usize>
        ensures { Gives result self.new.rest.now (lettered_at self.old.rest.now) }
    {
        let letter = self.letter()?;
        self.behind(letter)
    }

    /// A mark.
    #[tactic(auto, unfolding(crate::specs::reader::Pieces::mark_at))]
    pub(crate) fn mark(&mut self) -> Result<Mark, usize>
        ensures { Gives result self.new.rest.now (mark_at self.old.rest.now) }
    {
        self.either(
            |cursor| cursor.lettered(),
            |cursor| cursor.unpaired(Letter::Bare),
        )
    }

    /// A class, by its index.
    fn class_word(&mut self) -> Result<usize, usize>
        ensures reading { Gives result self.new.rest.now (one_of (codes "F") later_classes self.old.rest.now) }
        ensures index { IfOk result (λ i. i ≤ 2) }
    {
        self.one_of(b"F", &LATER_CLASSES)
    }

    /// A class.
    #[tactic(auto, unfolding(crate::specs::reader::Pieces::class_at))]
    fn class(&mut self) -> Result<Cabin, usize>
        ensures { Gives result self.new.rest.now (class_at self.old.rest.now) }
    {
        match self.class_word()? {
            0 => Ok(Cabin::F),
            1 => Ok(Cabin::C),
            _ => Ok(Cabin::Y),
        }
    }

    /// A kind of fare, by its index.
    fn kind_word(&mut self) -> Result<usize, usize>
        ensures reading { Gives result self.new.rest.now (one_of (codes "OW") later_kinds self.old.rest.now) }
        ensures index { IfOk result (λ i. i ≤ 1) }
    {
        self.one_of(b"OW", &LATER_KINDS)
    }

    /// A kind of fare.
    #[tactic(auto, unfolding(crate::specs::reader::Pieces::kind_at))]
    fn kind(&mut self) -> Result<Kind, usize>
        ensures { Gives result self.new.rest.now (kind_at self.old.rest.now) }
    {
        match self.kind_word()? {
            0 => Ok(Kind::OW),
            _ => Ok(Kind::HR),
        }
    }

    /// A rule and a slash.
    #[tactic(auto, unfolding(crate::specs::reader::Pieces::rule_at, crate::specs::reader::Reading::scan))]
    fn rule(&mut self) -> Result<Option<RuleId>, usize>
        ensures { Gives result self.new.rest.now (rule_at self.old.rest.now) }
    {
        let start = self.rest;
        for (i, byte) in start.iter().enumerate() {
            if *byte == b'/' {
                self.rest = &start[i + 1..];
                return Ok(rule_of(&start[..i]));
            }
            if !is_code_character(*byte) || i >= 8 {
                return Err(start.len() - i);
            }
        }
        Err(0)
    }

    /// A tag and a slash.
    #[tactic(auto, unfolding(crate::specs::reader::Pieces::tag_at))]
    pub(crate) fn tag(&mut self) -> Result<Tag, usize>
        ensures { Gives result self.new.rest.now (tag_at self.old.rest.now) }
    {
        let carrier = self.carrier()?;
        let class = self.class()?;
        let kind = self.kind()?;
        let rule = self.rule()?;
        Ok(Tag {
            carrier,
            class,
            kind,
            rule,
        })
    }
}

/// Whether a byte may stand in a rule's id.
fn is_code_character(byte: u8) -> bool
    ensures { result ≡ is_code_character byte }
{
    byte.is_ascii_uppercase() || byte.is_ascii_digit()
}

/// The rule of an id, which is the free rule where it is empty.
fn rule_of(id: &[u8]) -> Option<RuleId>
    requires form { list_all is_code_character id.now ≡ true }
    requires short { length id.now ≤ 8 }
    ensures { result ≡ rule_of id.now }
{
    RuleId::read(id)
}
