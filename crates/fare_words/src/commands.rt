//! Each command from the options that its definition found.

ghost use Rattle.std.specs.Prelude.{◌≡◌, IfSome};
ghost use Rattle.fare_words.specs.Commands.{command_in, price_of, publish_of, list_of, export_of};
ghost use Rattle.fare_words.specs.Commands.{quote_of, serve_of, drill_of, migrate_of, diff_of, compare_of};
ghost use Rattle.fare_words.specs.WithinLimits.{IsWithinLimits};

use crate::command::Command;
use crate::name::CommandName;
use crate::options::Options;
use crate::values::{
    asked, count, edition, extra, from, json, port, round, sectors, seed, store, to, workers,
};

/// The command of this name; nothing where a value isn't in its form.
#[tactic(auto, unfolding(crate::specs::Commands::command_in, crate::specs::WithinLimits::IsWithinLimits))]
pub(crate) fn command_in<'a>(name: CommandName, options: &Options<'a>) -> Option<Command<'a>>
    ensures value { result ≡ command_in name options.now }
    ensures limits { IfSome result IsWithinLimits }
{
    match name {
        CommandName::Price => price(options),
        CommandName::Publish => publish(options),
        CommandName::List => list(options),
        CommandName::Export => export(options),
        CommandName::Quote => quote(options),
        CommandName::Serve => serve(options),
        CommandName::Drill => drill(options),
        CommandName::Migrate => migrate(options),
        CommandName::Check => Some(Command::Check),
        CommandName::Diff => diff(options),
        CommandName::Compare => compare(options),
    }
}

#[tactic(auto, unfolding(crate::specs::Commands::price_of, crate::specs::WithinLimits::IsWithinLimits))]
fn price<'a>(options: &Options<'a>) -> Option<Command<'a>>
    ensures value { result ≡ price_of options.now }
    ensures limits { IfSome result IsWithinLimits }
{
    Some(Command::Price {
        workers: workers(options)?,
        asked: asked(options)?,
        json: json(options),
    })
}

#[tactic(auto, unfolding(crate::specs::Commands::publish_of, crate::specs::WithinLimits::IsWithinLimits))]
fn publish<'a>(options: &Options<'a>) -> Option<Command<'a>>
    ensures value { result ≡ publish_of options.now }
    ensures limits { IfSome result IsWithinLimits }
{
    Some(Command::Publish {
        store: store(options)?,
    })
}

#[tactic(auto, unfolding(crate::specs::Commands::list_of, crate::specs::WithinLimits::IsWithinLimits))]
fn list<'a>(options: &Options<'a>) -> Option<Command<'a>>
    ensures value { result ≡ list_of options.now }
    ensures limits { IfSome result IsWithinLimits }
{
    Some(Command::List {
        store: store(options)?,
        json: json(options),
    })
}

#[tactic(auto, unfolding(crate::specs::Commands::export_of, crate::specs::WithinLimits::IsWithinLimits))]
fn export<'a>(options: &Options<'a>) -> Option<Command<'a>>
    ensures value { result ≡ export_of options.now }
    ensures limits { IfSome result IsWithinLimits }
{
    Some(Command::Export {
        store: store(options)?,
        edition: edition(options)?,
    })
}

#[tactic(auto, unfolding(crate::specs::Commands::quote_of, crate::specs::WithinLimits::IsWithinLimits))]
fn quote<'a>(options: &Options<'a>) -> Option<Command<'a>>
    ensures value { result ≡ quote_of options.now }
    ensures limits { IfSome result IsWithinLimits }
{
    Some(Command::Quote {
        store: store(options)?,
        workers: workers(options)?,
        asked: asked(options)?,
        json: json(options),
    })
}

#[tactic(auto, unfolding(crate::specs::Commands::serve_of, crate::specs::WithinLimits::IsWithinLimits))]
fn serve<'a>(options: &Options<'a>) -> Option<Command<'a>>
    ensures value { result ≡ serve_of options.now }
    ensures limits { IfSome result IsWithinLimits }
{
    Some(Command::Serve {
        store: store(options)?,
        port: port(options)?,
        count: count(options)?,
        workers: workers(options)?,
        round: round(options)?,
    })
}

#[tactic(auto, unfolding(crate::specs::Commands::drill_of, crate::specs::WithinLimits::IsWithinLimits))]
fn drill<'a>(options: &Options<'a>) -> Option<Command<'a>>
    ensures value { result ≡ drill_of options.now }
    ensures limits { IfSome result IsWithinLimits }
{
    Some(Command::Drill {
        seed: seed(options)?,
        sectors: sectors(options)?,
        extra: extra(options)?,
        workers: workers(options)?,
    })
}

#[tactic(auto, unfolding(crate::specs::Commands::migrate_of, crate::specs::WithinLimits::IsWithinLimits))]
fn migrate<'a>(options: &Options<'a>) -> Option<Command<'a>>
    ensures value { result ≡ migrate_of options.now }
    ensures limits { IfSome result IsWithinLimits }
{
    Some(Command::Migrate {
        store: store(options)?,
    })
}

#[tactic(auto, unfolding(crate::specs::Commands::diff_of, crate::specs::WithinLimits::IsWithinLimits))]
fn diff<'a>(options: &Options<'a>) -> Option<Command<'a>>
    ensures value { result ≡ diff_of options.now }
    ensures limits { IfSome result IsWithinLimits }
{
    Some(Command::Diff {
        store: store(options)?,
        from: from(options)?,
        to: to(options)?,
    })
}

#[tactic(auto, unfolding(crate::specs::Commands::compare_of, crate::specs::WithinLimits::IsWithinLimits))]
fn compare<'a>(options: &Options<'a>) -> Option<Command<'a>>
    ensures value { result ≡ compare_of options.now }
    ensures limits { IfSome result IsWithinLimits }
{
    Some(Command::Compare {
        store: store(options)?,
        from: from(options)?,
        to: to(options)?,
        workers: workers(options)?,
    })
}
