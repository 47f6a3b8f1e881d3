//! The line on standard error that says why a run ended.

ghost use Rattle.std.specs.Prelude.{◌≡◌, ◌++◌, IfOk, codes, decimal};
ghost use Rattle.fare_book.specs.DamageText.{damage_text};
ghost use Rattle.fare_commands.specs.FaultText.{line, fault_line};

use crate::exit::Exit;
use fare_book::Damage;
use fare_ports::NoMemory;
use fare_text::push_labelled;
use std::alloc::Global;

/// The line of what a run ended in; nothing for `Done`.
pub fn fault_text(alloc: Global, exit: &Exit) -> Result<Vec<u8>, NoMemory>
    ensures { IfOk result (λ text. text.items ≡ fault_line exit.now) }
{
    match exit {
        Exit::Done => Ok(Vec::new(alloc)),
        Exit::Usage => words(alloc, b"USAGE"),
        Exit::BadTariff(fault) => words(alloc, fault.text().as_str().as_bytes()),
        Exit::BadTrip(fault) => words(alloc, fault.text().as_str().as_bytes()),
        Exit::Limit => words(alloc, b"LIMIT"),
        Exit::NoEdition(day) => named(alloc, b"NO EDITION ", day.text().as_str().as_bytes()),
        Exit::UnknownPlace(city) => named(
            alloc,
            b"UNKNOWN PLACE ",
            city.text().as_str().as_bytes(),
        ),
        Exit::ReadFault => words(alloc, b"READ FAULT"),
        Exit::WriteFault => words(alloc, b"WRITE FAULT"),
        Exit::KeeperFault => words(alloc, b"KEEPER FAULT"),
        Exit::DoorFault => words(alloc, b"DOOR FAULT"),
        Exit::Differs(number) => numbered(alloc, b"DIFFERS ", *number),
        Exit::BookFull => words(alloc, b"BOOK FULL"),
        Exit::Damaged(place, damage) => damaged(alloc, *place, damage),
        Exit::NoSuch(number) => numbered(alloc, b"NO SUCH EDITION ", *number),
        Exit::Memory => words(alloc, b"NO MEMORY"),
    }
}

/// A line of words.
fn words(alloc: Global, words: &[u8]) -> Result<Vec<u8>, NoMemory>
    ensures { IfOk result (λ text. text.items ≡ line words.now) }
{
    let mut text = Vec::from_slice(alloc, words)?;
    text.push(b'\n')?;
    Ok(text)
}

/// A line of words and what they speak of.
fn named(alloc: Global, front: &[u8], name: &[u8]) -> Result<Vec<u8>, NoMemory>
    ensures { IfOk result (λ text. text.items ≡ line (front.now ++ name.now)) }
{
    let mut text = Vec::from_slice(alloc, front)?;
    text.extend_from_slice(name)?;
    text.push(b'\n')?;
    Ok(text)
}

/// A line of words and a number.
fn numbered(alloc: Global, front: &[u8], number: u32) -> Result<Vec<u8>, NoMemory>
    ensures { IfOk result (λ text. text.items ≡ line (front.now ++ decimal number)) }
{
    let mut text = Vec::new(alloc);
    push_labelled(&mut text, front, number)?;
    text.push(b'\n')?;
    Ok(text)
}

/// The line of a damaged place of a store.
fn damaged(alloc: Global, place: u32, damage: &Damage) -> Result<Vec<u8>, NoMemory>
    ensures { IfOk result (λ text.
        text.items ≡ line (codes "DAMAGED " ++ decimal place ++ codes " " ++ damage_text damage.now)) }
{
    let mut text = Vec::new(alloc);
    push_labelled(&mut text, b"DAMAGED ", place)?;
    text.push(b' ')?;
    text.extend_from_slice(damage.text().as_str().as_bytes())?;
    text.push(b'\n')?;
    Ok(text)
}
