//! The text of what changed between two editions.

ghost use Rattle.std.specs.Prelude.{◌≡◌, ◌++◌, length, IfOk, OnOk};
ghost use Rattle.fare_changes.specs.Diff.{added, removed, same_count};
ghost use Rattle.fare_changes.specs.DiffText.{diff_line, diff_text};

use crate::missing::lines_of_missing;
use fare_ports::NoMemory;
use fare_tariff::Edition;
use fare_text::push_labelled;
use std::alloc::Global;

/// What changed from one edition to another: how many records were removed, added and are the same, then the line of
/// each removed record in the order of the one, and of each added record in the order of the other, as the canonical
/// text has them. A record is in an edition that has an equal one, whatever its place.
#[tactic(auto, unfolding(crate::specs::DiffText::diff_text))]
pub fn diff_text(alloc: Global, old: &Edition, new: &Edition) -> Result<Vec<u8>, NoMemory>
    ensures { IfOk result (λ text. text.items ≡ diff_text old.now new.now) }
{
    let gone = lines_of_missing(alloc, b"- ", old.records(), new.filed())?;
    let more = lines_of_missing(alloc, b"+ ", new.records(), old.filed())?;
    let mut text = Vec::new(alloc);
    push_diff_line(&mut text, old, new, gone.count, more.count)?;
    text.extend_from_slice(gone.text.as_slice())?;
    text.extend_from_slice(more.text.as_slice())?;
    Ok(text)
}

/// Appends the first line, by how many records were removed and added.
#[tactic(auto, unfolding(crate::specs::DiffText::diff_line))]
fn push_diff_line(
    text: &mut Vec<u8>,
    old: &Edition,
    new: &Edition,
    gone: u32,
    more: u32,
) -> Result<(), NoMemory>
    requires gone { gone ≡ length (removed old.now new.now) }
    requires more { more ≡ length (added old.now new.now) }
    ensures { OnOk result (text.new.items ≡ text.old.items ++ diff_line old.now new.now) }
{
    push_labelled(text, b"DIFF ", old.number())?;
    push_labelled(text, b" ", new.number())?;
    push_labelled(text, b" removed ", gone)?;
    push_labelled(text, b" added ", more)?;
    push_labelled(text, b" same ", same_count(old, new, gone))?;
    Ok(text.push(b'\n')?)
}

/// How many records of the one edition are in the other, by how many of them aren't.
#[tactic(auto, using(crate::proofs::Counted::same_left))]
fn same_count(old: &Edition, new: &Edition, gone: u32) -> u32
    requires { gone ≡ length (removed old.now new.now) }
    ensures { result ≡ same_count old.now new.now }
{
    let _new = new;
    old.records().len() as u32 - gone
}
