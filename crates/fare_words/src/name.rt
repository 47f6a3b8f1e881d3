ghost use Rattle.std.specs.Prelude.{◌≡◌};
ghost use Rattle.fare_words.specs.Words.{name_of};

/// Which command a first word names.
#[derive(Clone, Copy, Debug, PartialEq, Eq)]
pub(crate) enum CommandName {
    Price,
    Publish,
    List,
    Export,
    Quote,
    Serve,
    Drill,
    Migrate,
    Check,
    Diff,
    Compare,
}

impl CommandName {
    /// The command that the word names; nothing where it names none.
    #[tactic(auto, unfolding(crate::specs::Words::name_of))]
    pub(crate) fn read(word: &str) -> Option<CommandName>
        ensures { result ≡ name_of word.now }
    {
        match word {
            "price" => Some(CommandName::Price),
            "publish" => Some(CommandName::Publish),
            "list" => Some(CommandName::List),
            "export" => Some(CommandName::Export),
            "quote" => Some(CommandName::Quote),
            "serve" => Some(CommandName::Serve),
            "drill" => Some(CommandName::Drill),
            "migrate" => Some(CommandName::Migrate),
            "check" => Some(CommandName::Check),
            "diff" => Some(CommandName::Diff),
            "compare" => Some(CommandName::Compare),
            _ => None,
        }
    }
}
