//! The parse of the words by a definition in `clap`.

ghost use Rattle.std.specs.Prelude.{◌≡◌, ◌≢◌, IfOk, None, map, option_map, string_bytes, true};
ghost use Rattle.clap.specs.declared.error.kind.ErrorKind.TheVariants.{OutOfMemory};
ghost use Rattle.clap.specs.Words.{app_of, found_of, is_simple_and_free, rows_of};
ghost use Rattle.fare_words.specs.Options.{options_of};

use clap::error::ErrorKind;
use clap::{ArgMatches, Command as Definition};
use fare_ports::NoMemory;

/// What the definition finds in the words after the first; nothing where it doesn't take them.
pub(crate) fn parsed<'a>(
    definition: Definition<'a>,
    words: &'a [String],
) -> Result<Option<ArgMatches<'a>>, NoMemory>
    requires { is_simple_and_free (app_of definition) ≡ true }
    ensures { IfOk result (λ found. option_map (λ m. rows_of (found_of m)) found
        ≡ options_of (app_of definition.entry) (map string_bytes words.entry.now)) }
{
    match definition.try_get_matches_from(words) {
        Ok(found) => Ok(Some(found)),
        Err(error) => not_taken(error.kind()),
    }
}

/// What a parse that fails by this kind comes to: want of memory, or words that aren't taken.
fn not_taken<'a>(kind: ErrorKind) -> Result<Option<ArgMatches<'a>>, NoMemory>
    ensures { IfOk result (λ found. (kind ≢ OutOfMemory) × (found ≡ None)) }
{
    match kind {
        ErrorKind::OutOfMemory => Err(NoMemory),
        _ => Ok(None),
    }
}
