//! The numbers that options write.

ghost use Rattle.std.specs.Prelude.{◌≡◌, IfSome};
ghost use Rattle.fare_words.specs.Limits.{IsBetween};
ghost use Rattle.fare_words.specs.Options.{number_between};

use fare_codes::read_number;

/// The number, from the least to the most, that the text writes.
#[tactic(auto, unfolding(crate::specs::Options::number_between))]
pub(crate) fn number_between(text: &str, least: u32, most: u32) -> Option<u32>
    ensures value { result ≡ number_between least most text.now }
    ensures limits { IfSome result (IsBetween least most) }
{
    let number = read_number(text.as_bytes(), most)?;
    if number < least {
        return None;
    }
    Some(number)
}
