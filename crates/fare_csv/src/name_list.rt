//! Lists of rules.

ghost use Rattle.std.specs.Prelude.{◌≡◌, ◌≤◌, IfOk, IfSome, length, map, count_by, ◌==◌};
ghost use Rattle.fare_records.specs.Record.{name_count};
ghost use Rattle.fare_csv.specs.NameList.{names_of, pieces_of, read_list, read_name, read_names};

use fare_codes::RuleId;
use fare_ports::NoMemory;
use fare_tariff::{MOST_NAMES, Names, RuleList};
use std::alloc::{AllocError, Global};

/// A name of a list: a rule's id, or `-` for the free rule.
#[tactic(auto, unfolding(crate::specs::NameList::read_name))]
fn read_name(bytes: &[u8]) -> Option<Option<RuleId>>
    ensures { result ≡ read_name bytes.now }
{
    match bytes {
        b"-" => Some(None),
        _ => RuleId::read(bytes).map(Some),
    }
}

/// The pieces of a list, between spaces.
fn pieces_of<'a>(alloc: Global, bytes: &'a [u8]) -> Result<Vec<&'a [u8]>, AllocError>
    ensures { IfOk result (λ pieces. map (λ piece. piece.now) pieces.items ≡ pieces_of bytes.now) }
{
    bytes.split(|byte| *byte == b' ').collect(alloc)
}

/// How many spaces there are.
fn spaces_of(bytes: &[u8]) -> usize
    ensures { result ≡ count_by (λ byte. byte == 32) bytes.now }
{
    bytes.iter().filter(|byte| **byte == b' ').count()
}

/// The names that pieces spell; nothing where one of them isn't in its form.
fn names_of(alloc: Global, pieces: &[&[u8]]) -> Result<Option<RuleList>, NoMemory>
    ensures { IfOk result (λ list. list ≡ names_of (map (λ piece. piece.now) pieces.now)) }
{
    let mut list = RuleList::new(alloc);
    for piece in pieces {
        let Some(name) = read_name(piece) else {
            return Ok(None);
        };
        list.push(name)?;
    }
    Ok(Some(list))
}

/// One or more names, at most as many as a rule may list, with a space between two of them.
#[tactic(auto, using(crate::proofs::NameLemmas::read_list_few, crate::proofs::NameLemmas::read_list_many, crate::proofs::NameLemmas::read_list_short))]
fn read_list(alloc: Global, bytes: &[u8]) -> Result<Option<RuleList>, NoMemory>
    ensures value { IfOk result (λ list. list ≡ read_list bytes.now) }
    ensures short { IfOk result (λ list. IfSome list (λ names. length names ≤ MOST_NAMES)) }
{
    if spaces_of(bytes) >= MOST_NAMES {
        return Ok(None);
    }
    let pieces = pieces_of(alloc, bytes)?;
    names_of(alloc, pieces.as_slice())
}

/// A list: `*`, or empty, or names.
#[tactic(auto, unfolding(crate::specs::NameList::read_names))]
pub(crate) fn read_names(alloc: Global, bytes: &[u8]) -> Result<Option<Names>, NoMemory>
    ensures value { IfOk result (λ names. names ≡ read_names bytes.now) }
    ensures short { IfOk result (λ names. IfSome names (λ all. name_count all ≤ MOST_NAMES)) }
{
    if bytes == b"*".as_slice() {
        return Ok(Some(Names::All));
    }
    if bytes.is_empty() {
        return Ok(Some(Names::Of(RuleList::new(alloc))));
    }
    Ok(read_list(alloc, bytes)?.map(Names::Of))
}
