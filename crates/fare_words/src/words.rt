ghost use Rattle.std.specs.Prelude.{◌≡◌, IfOk, IfSome, map, string_bytes};
ghost use Rattle.fare_words.specs.Definitions.{definition_of};
ghost use Rattle.fare_words.specs.Options.{options_of};
ghost use Rattle.fare_words.specs.WithinLimits.{IsWithinLimits};
ghost use Rattle.fare_words.specs.Words.{command_of};

use crate::command::Command;
use crate::commands::command_in;
use crate::definitions::definition_of;
use crate::name::CommandName;
use crate::options::Options;
use fare_ports::NoMemory;
use std::alloc::Global;

/// The options that the definition of a command finds in the words after the first.
fn options_of<'a>(
    alloc: Global,
    name: CommandName,
    words: &'a [String],
) -> Result<Option<Options<'a>>, NoMemory>
    ensures { IfOk result (λ found. found ≡ options_of (definition_of name) (map string_bytes words.entry.now)) }
{
    let definition = definition_of(alloc, name)?;
    Options::read(definition, words)
}

/// The command that the words after the program's name give; nothing where they aren't taken: where the first is no
/// command's name, that command's definition in `clap` doesn't take the others, or a value isn't in its form.
#[tactic(auto, unfolding(crate::specs::Words::command_of))]
pub fn read_words<'a>(alloc: Global, words: &'a [String]) -> Result<Option<Command<'a>>, NoMemory>
    ensures taken { IfOk result (λ taken. taken ≡ command_of (map string_bytes words.entry.now)) }
    ensures limits { IfOk result (λ taken. IfSome taken IsWithinLimits) }
{
    let Some(first) = words.first() else {
        return Ok(None);
    };
    let Some(name) = CommandName::read(first.as_str()) else {
        return Ok(None);
    };
    let Some(options) = options_of(alloc, name, words)? else {
        return Ok(None);
    };
    Ok(command_in(name, &options))
}
