ghost use Rattle.std.specs.Prelude.{◌≡◌, ◌<◌, [], ◌∷◌, ◌++◌, length, true, false, nat_le, IfOk, None, vec_capacity};
ghost use Rattle.std.specs.Option.{option_copied};
ghost use Rattle.fare_book.specs.Book.{BookState, IsBook, numbered, has_number};

use fare_ports::NoMemory;
use fare_tariff::Edition;
use std::alloc::Global;
use std::marker::Model;

/// The most editions that a book holds.
pub const MOST_EDITIONS: usize = 32;

/// The published editions, in the order of publication: at most `MOST_EDITIONS`, of which no two have one number. A
/// book is settled where its editions are known to be those of the stored bodies.
#[derive(Drop)]
pub struct Book {
    editions: Vec<Edition>,
    settled: bool,
}

impl Model for Book {
    ghost use Rattle.std.specs.Prelude.{◌≤◌, vec_capacity};
    ghost use Rattle.fare_book.specs.declared.book.TheConstants.{MOST_EDITIONS};
    ghost use Rattle.fare_book.specs.Book.{BookState, IsBook};

    ghost Value = { BookState };

    ghost view = { λ b. record { editions = b.editions.items; settled = b.settled } };

    ghost invariant = { λ b. IsBook b.editions.items × (MOST_EDITIONS ≤ vec_capacity b.editions) };
}

impl Book {
    /// The settled book of one edition.
    pub fn of(alloc: Global, edition: Edition) -> Result<Book, NoMemory>
        ensures { IfOk result (λ book. book ≡ record { editions = edition ∷ []; settled = true }) }
    {
        let mut book = Book::empty(alloc)?;
        book.add(edition);
        Ok(book)
    }

    /// The settled book of no edition, which has room for all that it may hold.
    pub(crate) fn empty(alloc: Global) -> Result<Book, NoMemory>
        ensures { IfOk result (λ book. book ≡ record { editions = []; settled = true }) }
    {
        Ok(Book {
            editions: Vec::with_capacity(alloc, MOST_EDITIONS)?,
            settled: true,
        })
    }

    /// Puts an edition of a new number last.
    pub(crate) fn add(&mut self, edition: Edition)
        requires room { length self.old.editions < MOST_EDITIONS }
        requires new { numbered edition.number self.old.editions ≡ None }
        ensures { self.new ≡ record {
          editions = self.old.editions ++ edition ∷ [];
          settled = self.old.settled;
        } }
    {
        self.editions.push(edition).unwrap();
    }

    /// The editions may be no longer those of the stored bodies.
    pub(crate) fn unsettle(&mut self)
        ensures { self.new ≡ record { editions = self.old.editions; settled = false } }
    {
        self.settled = false;
    }

    /// Whether the book holds as many editions as it may.
    pub(crate) fn is_full(&self) -> bool
        ensures { result ≡ nat_le MOST_EDITIONS (length self.now.editions) }
    {
        self.editions.len() >= MOST_EDITIONS
    }

    /// The editions, in the order of publication.
    pub fn editions(&self) -> &[Edition]
        ensures editions { result.now ≡ self.now.editions }
        ensures in_limit { IsBook result.now }
    {
        self.editions.as_slice()
    }

    /// Whether the editions are known to be those of the stored bodies.
    pub fn settled(&self) -> bool
        ensures { result ≡ self.now.settled }
    {
        self.settled
    }

    /// The edition of this number; none exactly where no edition has it.
    pub fn find(&self, number: u32) -> Option<&Edition>
        ensures { option_copied result ≡ numbered number self.now.editions }
    {
        numbered(self.editions(), number)
    }
}

/// The edition of a number among some.
#[tactic(auto, using(crate::proofs::Scans::numbered_more, crate::proofs::Scans::numbered_all))]
fn numbered(editions: &[Edition], number: u32) -> Option<&Edition>
    ensures { option_copied result ≡ numbered number editions.now }
{
    for edition in editions {
        if has_number(edition, number) {
            return Some(edition);
        }
    }
    None
}

/// Whether an edition has this number.
pub(crate) fn has_number(edition: &Edition, number: u32) -> bool
    ensures { result ≡ has_number number edition.now }
{
    edition.number() == number
}
