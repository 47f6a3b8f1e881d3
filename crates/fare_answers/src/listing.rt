//! The text of the first constructions of a trip in an edition.

ghost use Rattle.std.specs.Prelude.{◌≡◌, ◌++◌, All, IfOk};
ghost use Rattle.fare_rules.specs.FirstK.{IsPriced};
ghost use Rattle.fare_calc.specs.Answer.{edition_line};
ghost use Rattle.fare_answers.specs.BestText.{first_text};

use crate::entries::push_first;
use crate::first_of::FirstOf;
use fare_calc::push_edition;
use fare_ports::NoMemory;
use std::alloc::Global;

/// The line that names the edition, and then each construction with its number, its price and its calculation line, or
/// `NO FARE` where there is none.
pub fn first_text(alloc: Global, first: &FirstOf<'_>) -> Result<Vec<u8>, NoMemory>
    requires { All (IsPriced first.now.edition.now first.now.trip.now) first.now.list.now }
    ensures { IfOk result (λ text. text.items ≡ edition_line first.now.edition.now
        ++ first_text first.now.edition.now first.now.trip.now first.now.list.now) }
{
    let mut text = Vec::new(alloc);
    push_edition(&mut text, first.edition)?;
    push_first(&mut text, alloc, first)?;
    Ok(text)
}
