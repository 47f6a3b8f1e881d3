//! Each command's definition in `clap`: its name, its options, each of which takes one value, and its flags, which take
//! none. Each may stand once.

ghost use Rattle.std.specs.Prelude.{◌≡◌, [], ◌∷◌, IfOk, codes, false};
ghost use Rattle.clap.specs.Words.{app_of, rule_of, with_rule};
ghost use Rattle.fare_words.specs.Definitions.{command_with, definition_of, flag, optional, required};
ghost use Rattle.fare_words.specs.Definitions.{price_definition, publish_definition, list_definition};
ghost use Rattle.fare_words.specs.Definitions.{export_definition, quote_definition, serve_definition};
ghost use Rattle.fare_words.specs.Definitions.{drill_definition, migrate_definition, check_definition};
ghost use Rattle.fare_words.specs.Definitions.{diff_definition, compare_definition};

use crate::name::CommandName;
use clap::{Arg, ArgAction, Command as Definition};
use std::alloc::{AllocError, Global};

/// The definition of the command of this name.
#[tactic(auto, unfolding(crate::specs::Definitions::definition_of))]
pub(crate) fn definition_of<'a>(
    alloc: Global,
    name: CommandName,
) -> Result<Definition<'a>, AllocError>
    ensures { IfOk result (λ made. app_of made ≡ definition_of name) }
{
    match name {
        CommandName::Price => price(alloc),
        CommandName::Publish => publish(alloc),
        CommandName::List => list(alloc),
        CommandName::Export => export(alloc),
        CommandName::Quote => quote(alloc),
        CommandName::Serve => serve(alloc),
        CommandName::Drill => drill(alloc),
        CommandName::Migrate => migrate(alloc),
        CommandName::Check => check(alloc),
        CommandName::Diff => diff(alloc),
        CommandName::Compare => compare(alloc),
    }
}

/// An option that may be left out.
fn optional<'a>(alloc: Global, name: &'a str) -> Arg<'a>
    ensures rule { rule_of result ≡ optional name.entry.now }
    ensures local { result.global ≡ false }
{
    Arg::new(alloc, name).long(name).action(ArgAction::Set)
}

/// An option that has to stand.
fn required<'a>(alloc: Global, name: &'a str) -> Arg<'a>
    ensures rule { rule_of result ≡ required name.entry.now }
    ensures local { result.global ≡ false }
{
    optional(alloc, name).required(true)
}

/// A flag.
fn flag<'a>(alloc: Global, name: &'a str) -> Arg<'a>
    ensures rule { rule_of result ≡ flag name.entry.now }
    ensures local { result.global ≡ false }
{
    Arg::new(alloc, name).long(name).action(ArgAction::SetTrue)
}

/// The definition with one more option or flag.
fn with_option<'a>(
    definition: Definition<'a>,
    option: Arg<'a>,
) -> Result<Definition<'a>, AllocError>
    requires { option.global ≡ false }
    ensures { IfOk result (λ made. app_of made ≡ with_rule (app_of definition.entry) (rule_of option.entry)) }
{
    definition.arg(option)
}

/// A definition of this name whose one option is the store.
fn with_store<'a>(alloc: Global, name: &'a str) -> Result<Definition<'a>, AllocError>
    ensures { IfOk result (λ made. app_of made ≡ command_with name.entry.now (required (codes "store") ∷ [])) }
{
    with_option(Definition::new(alloc, name), required(alloc, "store"))
}

/// `price [--workers W] [--best K] [--why] [--json]`.
#[tactic(auto, unfolding(crate::specs::Definitions::price_definition))]
fn price<'a>(alloc: Global) -> Result<Definition<'a>, AllocError>
    ensures { IfOk result (λ made. app_of made ≡ price_definition) }
{
    let definition = Definition::new(alloc, "price");
    let definition = with_option(definition, optional(alloc, "workers"))?;
    let definition = with_option(definition, optional(alloc, "best"))?;
    let definition = with_option(definition, flag(alloc, "why"))?;
    with_option(definition, flag(alloc, "json"))
}

/// `publish --store NAME`.
#[tactic(auto, unfolding(crate::specs::Definitions::publish_definition))]
fn publish<'a>(alloc: Global) -> Result<Definition<'a>, AllocError>
    ensures { IfOk result (λ made. app_of made ≡ publish_definition) }
{
    with_store(alloc, "publish")
}

/// `list --store NAME [--json]`.
#[tactic(auto, unfolding(crate::specs::Definitions::list_definition))]
fn list<'a>(alloc: Global) -> Result<Definition<'a>, AllocError>
    ensures { IfOk result (λ made. app_of made ≡ list_definition) }
{
    let definition = with_store(alloc, "list")?;
    with_option(definition, flag(alloc, "json"))
}

/// `export --store NAME --edition N`.
#[tactic(auto, unfolding(crate::specs::Definitions::export_definition))]
fn export<'a>(alloc: Global) -> Result<Definition<'a>, AllocError>
    ensures { IfOk result (λ made. app_of made ≡ export_definition) }
{
    let definition = with_store(alloc, "export")?;
    with_option(definition, required(alloc, "edition"))
}

/// `quote --store NAME [--workers W] [--best K] [--why] [--json]`.
#[tactic(auto, unfolding(crate::specs::Definitions::quote_definition))]
fn quote<'a>(alloc: Global) -> Result<Definition<'a>, AllocError>
    ensures { IfOk result (λ made. app_of made ≡ quote_definition) }
{
    let definition = with_store(alloc, "quote")?;
    let definition = with_option(definition, optional(alloc, "workers"))?;
    let definition = with_option(definition, optional(alloc, "best"))?;
    let definition = with_option(definition, flag(alloc, "why"))?;
    with_option(definition, flag(alloc, "json"))
}

/// `serve --store NAME --port P --count N [--workers W] [--round R]`.
#[tactic(auto, unfolding(crate::specs::Definitions::serve_definition))]
fn serve<'a>(alloc: Global) -> Result<Definition<'a>, AllocError>
    ensures { IfOk result (λ made. app_of made ≡ serve_definition) }
{
    let definition = with_store(alloc, "serve")?;
    let definition = with_option(definition, required(alloc, "port"))?;
    let definition = with_option(definition, required(alloc, "count"))?;
    let definition = with_option(definition, optional(alloc, "workers"))?;
    with_option(definition, optional(alloc, "round"))
}

/// `drill --seed S --sectors K [--extra E] [--workers W]`.
#[tactic(auto, unfolding(crate::specs::Definitions::drill_definition))]
fn drill<'a>(alloc: Global) -> Result<Definition<'a>, AllocError>
    ensures { IfOk result (λ made. app_of made ≡ drill_definition) }
{
    let definition = Definition::new(alloc, "drill");
    let definition = with_option(definition, required(alloc, "seed"))?;
    let definition = with_option(definition, required(alloc, "sectors"))?;
    let definition = with_option(definition, optional(alloc, "extra"))?;
    with_option(definition, optional(alloc, "workers"))
}

/// `migrate --store NAME`.
#[tactic(auto, unfolding(crate::specs::Definitions::migrate_definition))]
fn migrate<'a>(alloc: Global) -> Result<Definition<'a>, AllocError>
    ensures { IfOk result (λ made. app_of made ≡ migrate_definition) }
{
    with_store(alloc, "migrate")
}

/// `check`.
#[tactic(auto, unfolding(crate::specs::Definitions::check_definition))]
fn check<'a>(alloc: Global) -> Result<Definition<'a>, AllocError>
    ensures { IfOk result (λ made. app_of made ≡ check_definition) }
{
    Ok(Definition::new(alloc, "check"))
}

/// `diff --store NAME --from N --to M`.
#[tactic(auto, unfolding(crate::specs::Definitions::diff_definition))]
fn diff<'a>(alloc: Global) -> Result<Definition<'a>, AllocError>
    ensures { IfOk result (λ made. app_of made ≡ diff_definition) }
{
    let definition = with_store(alloc, "diff")?;
    let definition = with_option(definition, required(alloc, "from"))?;
    with_option(definition, required(alloc, "to"))
}

/// `compare --store NAME --from N --to M [--workers W]`.
#[tactic(auto, unfolding(crate::specs::Definitions::compare_definition))]
fn compare<'a>(alloc: Global) -> Result<Definition<'a>, AllocError>
    ensures { IfOk result (λ made. app_of made ≡ compare_definition) }
{
    let definition = with_store(alloc, "compare")?;
    let definition = with_option(definition, required(alloc, "from"))?;
    let definition = with_option(definition, required(alloc, "to"))?;
    with_option(definition, optional(alloc, "workers"))
}
