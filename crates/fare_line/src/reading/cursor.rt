//! The front of a text that is read: bytes, words and codes.

ghost use Rattle.std.specs.Prelude.{◌≡◌, ℕ, List, Result};
ghost use Rattle.std.specs.Fn.{FnOnceReturnsAtMut};
ghost use Rattle.fare_line.specs.reader.Reading.{AllGive, Gives, either, byte_at, carrier_at, city_at};
ghost use Rattle.fare_line.specs.reader.Reading.{spaced_city_at, word_at};

use crate::reading::byte_kind::ByteKind;
use fare_codes::{Carrier, City};

/// What is left of a text. Each call reads what it names from the front of it, or answers how many bytes are left where
/// no text goes on.
#[derive(Drop)]
pub(crate) struct Cursor<'a> {
    pub(crate) rest: &'a [u8],
}

impl<'a> Cursor<'a> {
    /// A byte of a kind.
    pub(crate) fn byte(&mut self, kind: ByteKind) -> Result<u8, usize>
        ensures { Gives result self.new.rest.now (byte_at kind self.old.rest.now) }
    {
        let rest = self.rest;
        match rest {
            [] => Err(0),
            [byte, behind @ ..] => {
                if !kind.holds(*byte) {
                    return Err(rest.len());
                }
                self.rest = behind;
                Ok(*byte)
            }
        }
    }

    /// One of two readings: the first, or where that stops, the second from the same place. Where both stop, the one
    /// that stops later says how many bytes are left.
    pub(crate) fn either<T: Drop, F, G>(&mut self, first: F, second: G) -> Result<T, usize>
    where
        F: FnOnce(&mut Cursor<'a>) -> Result<T, usize>,
        G: FnOnce(&mut Cursor<'a>) -> Result<T, usize>,
        requires first { F.IsAlwaysCallable first }
        requires second { G.IsAlwaysCallable second }
        ensures { (a b : Result (T × List ℕ) ℕ) →
            AllGive (FnOnceReturnsAtMut F.FnOnce first self.old) a →
            AllGive (FnOnceReturnsAtMut G.FnOnce second self.old) b →
            Gives result self.new.rest.now (either a b) }
    {
        let start = self.rest;
        match first(self) {
            Ok(found) => Ok(found),
            Err(left) => {
                self.rest = start;
                match second(self) {
                    Ok(found) => Ok(found),
                    Err(more) => Err(left.min(more)),
                }
            }
        }
    }

    /// A word.
    #[tactic(auto, unfolding(crate::specs::reader::Reading::word_at))]
    pub(crate) fn word(&mut self, word: &[u8]) -> Result<(), usize>
        ensures { Gives result self.new.rest.now (word_at word.now self.old.rest.now) }
    {
        for letter in word {
            self.byte(ByteKind::This(*letter))?;
        }
        Ok(())
    }

    /// A city.
    #[tactic(auto, unfolding(crate::specs::reader::Reading::city_at))]
    pub(crate) fn city(&mut self) -> Result<City, usize>
        ensures { Gives result self.new.rest.now (city_at self.old.rest.now) }
    {
        let a = self.byte(ByteKind::Uppercase)?;
        let b = self.byte(ByteKind::Uppercase)?;
        let c = self.byte(ByteKind::Uppercase)?;
        City::read(&[a, b, c]).ok_or(self.rest.len())
    }

    /// A city and a space.
    #[tactic(auto, unfolding(crate::specs::reader::Reading::spaced_city_at))]
    pub(crate) fn spaced_city(&mut self) -> Result<City, usize>
        ensures { Gives result self.new.rest.now (spaced_city_at self.old.rest.now) }
    {
        let city = self.city()?;
        let _space = self.byte(ByteKind::This(b' '))?;
        Ok(city)
    }

    /// A carrier.
    #[tactic(auto, unfolding(crate::specs::reader::Reading::carrier_at))]
    pub(crate) fn carrier(&mut self) -> Result<Carrier, usize>
        ensures { Gives result self.new.rest.now (carrier_at self.old.rest.now) }
    {
        let a = self.byte(ByteKind::CodeCharacter)?;
        let b = self.byte(ByteKind::CodeCharacter)?;
        Carrier::read(&[a, b]).ok_or(self.rest.len())
    }
}
