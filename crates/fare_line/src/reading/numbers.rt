//! Words of a choice and numbers at the front of a text.

ghost use Rattle.std.specs.Prelude.{◌≡◌, ◌<◌, ◌*◌, ◌≤◌, ◌^◌, ℕ, List, [], ◌∷◌, map, length, codes, Ok, IfOk};
ghost use Rattle.fare_line.specs.reader.Reading.{Gives, amount_at, counted_at, hundredths_at, later, later_units};
ghost use Rattle.fare_line.specs.reader.Reading.{nought_at, one_of, rate_at, scan, unit_at, whole_at, with_digit};

use crate::reading::byte_kind::ByteKind;
use crate::reading::cursor::Cursor;

/// The units behind the first, each with its space.
const LATER_UNITS: [&[u8]; 15] = [
    b"2 ", b"3 ", b"4 ", b"5 ", b"6 ", b"7 ", b"8 ", b"9 ", b"10 ", b"11 ", b"12 ", b"13 ", b"14 ",
    b"15 ", b"16 ",
];

impl Cursor<'_> {
    /// One of a word and some others, by its index.
    #[cycle(one_word)]
    #[tactic(auto, using(crate::proofs::Words::index_of_word), unfolding(crate::specs::reader::Reading::one_of))]
    pub(crate) fn one_of(&mut self, word: &[u8], others: &[&[u8]]) -> Result<usize, usize>
        ensures reading { Gives result self.new.rest.now
            (one_of word.now (map (λ w. w.now) others.now) self.old.rest.now) }
        ensures index { IfOk result (λ i. i ≤ length others.now) }
    {
        match others {
            [] => self.first_word(word),
            [next, behind @ ..] => self.first_or_later(word, next, behind),
        }
    }

    /// A word, as the first of some.
    #[tactic(auto, unfolding(crate::specs::reader::Reading::one_of))]
    fn first_word(&mut self, word: &[u8]) -> Result<usize, usize>
        ensures reading { Gives result self.new.rest.now (one_of word.now [] self.old.rest.now) }
        ensures index { IfOk result (λ i. i ≡ 0) }
    {
        self.word(word)?;
        Ok(0)
    }

    /// A word, or one of some others behind it.
    #[cycle(one_word)]
    #[tactic(auto, unfolding(crate::specs::reader::Reading::one_of))]
    fn first_or_later(&mut self, word: &[u8], next: &[u8], behind: &[&[u8]]) -> Result<usize, usize>
        ensures { Gives result self.new.rest.now
            (one_of word.now (next.now ∷ map (λ w. w.now) behind.now) self.old.rest.now) }
    {
        self.either(
            |cursor| cursor.first_word(word),
            |cursor|
                ensures { Gives result cursor.new.rest.now
                    (later (one_of next.entry.now (map (λ w. w.now) behind.entry.now) cursor.old.rest.now)) }
            { cursor.later_word(next, behind) },
        )
    }

    /// One of a word and some others, by its index behind a first one.
    #[cycle(one_word)]
    fn later_word(&mut self, word: &[u8], others: &[&[u8]]) -> Result<usize, usize>
        ensures { Gives result self.new.rest.now
            (later (one_of word.now (map (λ w. w.now) others.now) self.old.rest.now)) }
    {
        let i = self.one_of(word, others)?;
        Ok(i + 1)
    }

    /// A unit and a space.
    #[tactic(auto, unfolding(crate::specs::reader::Reading::unit_at))]
    pub(crate) fn unit(&mut self) -> Result<u8, usize>
        ensures { Gives result self.new.rest.now (unit_at self.old.rest.now) }
    {
        let found = self.unit_word()?;
        Ok(found as u8 + 1)
    }

    /// A unit and a space, by the unit's index.
    fn unit_word(&mut self) -> Result<usize, usize>
        ensures reading { Gives result self.new.rest.now (one_of (codes "1 ") later_units self.old.rest.now) }
        ensures index { IfOk result (λ i. i ≤ 15) }
    {
        self.one_of(b"1 ", &LATER_UNITS)
    }

    /// A number that goes on, up to its point, as long as it stays below ten times the limit.
    #[tactic(auto, unfolding(crate::specs::reader::Reading::scan))]
    fn digits(&mut self, first: u64, limit: u64) -> Result<u64, usize>
        requires small { first < 10 * limit }
        requires limit { limit ≤ 10 ^ 9 }
        ensures reading { Gives result self.new.rest.now (scan (with_digit limit) 46 first self.old.rest.now) }
        ensures bound { IfOk result (λ number. number < 10 * limit) }
    {
        let start = self.rest;
        let mut number = first;
        for (i, byte) in start.iter().enumerate() {
            if *byte == b'.' {
                self.rest = &start[i + 1..];
                return Ok(number);
            }
            if !byte.is_ascii_digit() || number >= limit {
                return Err(start.len() - i);
            }
            number = 10 * number + (*byte - b'0') as u64;
        }
        Err(0)
    }

    /// A number that isn't 0, below ten times the limit, and a point.
    #[tactic(auto, unfolding(crate::specs::reader::Reading::counted_at))]
    fn counted(&mut self, limit: u64) -> Result<u64, usize>
        requires some { 1 ≤ limit }
        requires limit { limit ≤ 10 ^ 9 }
        ensures reading { Gives result self.new.rest.now (counted_at limit self.old.rest.now) }
        ensures bound { IfOk result (λ number. number < 10 * limit) }
    {
        let first = self.byte(ByteKind::Among(b'1', b'9'))?;
        self.digits((first - b'0') as u64, limit)
    }

    /// 0 and a point.
    #[tactic(auto, unfolding(crate::specs::reader::Reading::nought_at))]
    fn nought(&mut self) -> Result<u64, usize>
        ensures { Gives result self.new.rest.now (nought_at self.old.rest.now) }
    {
        self.word(b"0.")?;
        Ok(0)
    }

    /// 0 or a number that isn't, below ten times the limit, and a point.
    #[tactic(auto, unfolding(crate::specs::reader::Reading::whole_at))]
    fn counted_or_nought(&mut self, limit: u64) -> Result<u64, usize>
        requires some { 1 ≤ limit }
        requires limit { limit ≤ 10 ^ 9 }
        ensures { Gives result self.new.rest.now (whole_at limit self.old.rest.now) }
    {
        self.either(|cursor| cursor.counted(limit), |cursor| cursor.nought())
    }

    /// A number below ten times the limit, and a point.
    fn whole(&mut self, limit: u64) -> Result<u64, usize>
        requires some { 1 ≤ limit }
        requires limit { limit ≤ 10 ^ 9 }
        ensures reading { Gives result self.new.rest.now (whole_at limit self.old.rest.now) }
        ensures bound { IfOk result (λ number. number < 10 * limit) }
    {
        self.counted_or_nought(limit)
    }

    /// Two digits.
    #[tactic(auto, unfolding(crate::specs::reader::Reading::hundredths_at))]
    fn hundredths(&mut self) -> Result<u64, usize>
        ensures reading { Gives result self.new.rest.now (hundredths_at self.old.rest.now) }
        ensures bound { IfOk result (λ number. number < 100) }
    {
        let a = self.byte(ByteKind::Digit)?;
        let b = self.byte(ByteKind::Digit)?;
        Ok(10 * (a - b'0') as u64 + (b - b'0') as u64)
    }

    /// An amount, in hundredths.
    #[tactic(auto, unfolding(crate::specs::reader::Reading::amount_at))]
    pub(crate) fn amount(&mut self) -> Result<u64, usize>
        ensures reading { Gives result self.new.rest.now (amount_at self.old.rest.now) }
    {
        let whole = self.whole(100_000_000)?;
        let places = self.hundredths()?;
        Ok(100 * whole + places)
    }

    /// A rate, in millionths.
    #[tactic(auto, unfolding(crate::specs::reader::Reading::rate_at))]
    pub(crate) fn rate(&mut self) -> Result<u64, usize>
        ensures reading { Gives result self.new.rest.now (rate_at self.old.rest.now) }
    {
        let whole = self.whole(1_000_000)?;
        let a = self.hundredths()?;
        let b = self.hundredths()?;
        let c = self.hundredths()?;
        Ok(1_000_000 * whole + 10_000 * a + 100 * b + c)
    }
}
