//! The sentences of broken rules.

ghost use Rattle.std.specs.Prelude.{◌≡◌, ◌++◌, ℕ, OnOk};
ghost use Rattle.fare_sentences.specs.BrokenWords.{broken_words, rule_words};
ghost use Rattle.fare_sentences.specs.Sentence.{around};

use crate::sentence::push_around;
use fare_ports::NoMemory;
use fare_rules::Rule;

/// Appends the sentence of the rule of a number that is broken at a place: the number of a part or of a unit, as the
/// rule says. Where no rule has the number it appends nothing. After want of memory the text may hold a part of it.
pub fn push_broken(text: &mut Vec<u8>, number: u8, place: u32) -> Result<(), NoMemory>
    ensures { OnOk result (text.new.items ≡ text.old.items ++ broken_words number place) }
{
    let Some(rule) = Rule::of(number) else {
        return Ok(());
    };
    let (before, behind) = words_around(rule);
    push_around(text, before, place, behind)
}

/// What the sentence of a rule says before the place, and what behind it.
fn words_around(rule: Rule) -> (&'static [u8], &'static [u8])
    ensures { (place : ℕ) → around result.0.now place result.1.now ≡ rule_words rule place }
{
    match rule {
        Rule::Cover => (b"the parts don't cover the trip, first at part ", b""),
        Rule::Numbering => (
            b"the units aren't numbered in the order of their first parts, first at part ",
            b"",
        ),
        Rule::Record => (b"part ", b" has no fare of the tariff"),
        Rule::Crossing => (b"the units cross, first at part ", b""),
        Rule::Alone => (b"unit ", b" has a one way fare and more than one part"),
        Rule::Chain => (
            b"unit ",
            b" has a part that doesn't begin where the part before it ends",
        ),
        Rule::Close => (
            b"unit ",
            b" doesn't come back to its origin, or does so before its last part",
        ),
        Rule::Distinct => (b"part ", b" comes to one city twice"),
        Rule::Pair => (
            b"the fare of part ",
            b" doesn't run between the ends of the part in its direction",
        ),
        Rule::Indicator => (
            b"the fare of part ",
            b" has another global indicator than the part",
        ),
        Rule::Cabin => (
            b"the class of the fare of part ",
            b" is below a cabin of the part",
        ),
        Rule::Carrier => (
            b"the fare of part ",
            b" is of a carrier that doesn't fly each sector of the part",
        ),
        Rule::Stops => (b"part ", b" has more stopovers than its rule allows"),
        Rule::Transfers => (b"part ", b" has more transfers than its rule allows"),
        Rule::Advance => (
            b"the rule of part ",
            b" asks for more days between sale and departure",
        ),
        Rule::Mileage => (b"part ", b" can't be built by its mileage"),
        Rule::Excess => (
            b"part ",
            b" has a mileage surcharge, which its rule doesn't allow",
        ),
        Rule::Stay => (
            b"the stay of unit ",
            b" is shorter or longer than a rule of its parts allows",
        ),
        Rule::Combine => (b"unit ", b" has two fares that aren't combinable in a unit"),
        Rule::End => (
            b"the fare of part ",
            b" isn't combinable end on end with an earlier one",
        ),
        Rule::Surface => (b"part ", b" holds a surface sector"),
        Rule::Season => (
            b"the season of the fare of part ",
            b" doesn't hold the day on which the part begins",
        ),
    }
}
