use crate::numbers::number_between;
use crate::parsing::parsed;
use clap::{ArgMatches, Command as Definition};
use fare_ports::NoMemory;
use std::marker::Model;

/// The options that a definition finds in words that it takes, with the texts of their values.
#[derive(Debug, Drop)]
pub(crate) struct Options<'a> {
    found: ArgMatches<'a>,
}

impl<'a> Model for Options<'a> {
    ghost use Rattle.std.specs.Prelude.{List};
    ghost use Rattle.clap.specs.Words.{Row, found_of, rows_of};

    ghost Value = { List Row };

    ghost view = { λ options. rows_of (found_of options.found) };
}

impl<'a> Options<'a> {
    ghost use Rattle.std.specs.Prelude.{◌≡◌, ◌≤◌, IfOk, IfSome, map, option_map, string_bytes, true};
    ghost use Rattle.clap.specs.Words.{app_of, first_of, is_simple_and_free};
    ghost use Rattle.fare_words.specs.Limits.{IsBetween};
    ghost use Rattle.fare_words.specs.Options.{has_flag, number_in, number_or, options_of};

    /// The options that the definition finds in the words after the first; nothing where it doesn't take them.
    pub(crate) fn read(
        definition: Definition<'a>,
        words: &'a [String],
    ) -> Result<Option<Options<'a>>, NoMemory>
        requires { is_simple_and_free (app_of definition) ≡ true }
        ensures { IfOk result (λ found.
            found ≡ options_of (app_of definition.entry) (map string_bytes words.entry.now)) }
    {
        match parsed(definition, words)? {
            Some(found) => Ok(Some(Options { found })),
            None => Ok(None),
        }
    }

    /// The text of an option; nothing where it was left out.
    #[tactic(auto, using(crate::proofs::Parsed::text_of_rows))]
    pub(crate) fn text(&self, name: &str) -> Option<&'a str>
        ensures { option_map (λ text. text.now) result ≡ first_of name.now self.now }
    {
        self.found.get_str(name)
    }

    /// Whether a flag stands.
    #[tactic(auto, unfolding(crate::specs::Options::has_flag))]
    pub(crate) fn flag(&self, name: &str) -> bool
        ensures { result ≡ has_flag name.now self.now }
    {
        match self.text(name) {
            Some(text) => text == "true",
            None => false,
        }
    }

    /// The number of an option that has to stand; nothing where its text is no number from the least to the most.
    #[tactic(auto, unfolding(crate::specs::Options::number_in))]
    pub(crate) fn number(&self, name: &str, least: u32, most: u32) -> Option<u32>
        ensures value { result ≡ number_in name.now least most self.now }
        ensures limits { IfSome result (IsBetween least most) }
    {
        match self.text(name) {
            Some(text) => number_between(text, least, most),
            None => None,
        }
    }

    /// The same, or another number where the option was left out.
    #[tactic(auto, unfolding(crate::specs::Options::number_or))]
    pub(crate) fn number_or(&self, name: &str, least: u32, most: u32, default: u32) -> Option<u32>
        requires { IsBetween least most default }
        ensures value { result ≡ number_or name.now least most default self.now }
        ensures limits { IfSome result (IsBetween least most) }
    {
        match self.text(name) {
            Some(text) => number_between(text, least, most),
            None => Some(default),
        }
    }
}
