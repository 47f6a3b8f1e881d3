//! An edition by its effective day and its number.

ghost use Rattle.std.specs.Prelude.{◌≡◌, ◌++◌, OnOk};
ghost use Rattle.fare_json.specs.Spelled.{edition_json};

use crate::writing::push_named;
use fare_ports::NoMemory;
use fare_tariff::Edition;
use fare_text::push_labelled;

/// Appends an edition.
#[tactic(auto, unfolding(crate::specs::Spelled::edition_json))]
pub fn push_edition(text: &mut Vec<u8>, edition: &Edition) -> Result<(), NoMemory>
    ensures { OnOk result (text.new.items ≡ text.old.items ++ edition_json edition.now) }
{
    push_named(text, b"{\"effective\":", &edition.effective().text())?;
    push_labelled(text, b",\"number\":", edition.number())?;
    Ok(text.push(b'}')?)
}
