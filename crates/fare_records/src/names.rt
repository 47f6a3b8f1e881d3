ghost use Rattle.std.specs.Prelude.{◌≡◌, [], ◌∷◌, ◌++◌, OnOk, OnErr};

use fare_codes::RuleId;
use fare_ports::NoMemory;
use std::alloc::Global;
use std::marker::Model;

/// A list of rules by their ids, in which nothing stands for the free rule. A contract sees the list of names.
#[derive(Drop)]
pub struct RuleList {
    names: Vec<Option<RuleId>>,
}

impl Model for RuleList {
    ghost use Rattle.std.specs.Prelude.{List, ℕ, Option};

    ghost Value = { List (Option (List ℕ)) };

    ghost view = { λ l. l.names.items };
}

impl RuleList {
    /// No name.
    pub fn new(alloc: Global) -> RuleList
        ensures { result ≡ [] }
    {
        RuleList {
            names: Vec::new(alloc),
        }
    }

    /// Adds a name at the end; where memory is wanting the list is as before.
    pub fn push(&mut self, name: Option<RuleId>) -> Result<(), NoMemory>
        ensures ok { OnOk result (self.new ≡ self.old ++ name ∷ []) }
        ensures err { OnErr result (self.new ≡ self.old) }
    {
        self.names.push(name)?;
        Ok(())
    }

    /// The names, in their order.
    pub fn names(&self) -> &[Option<RuleId>]
        ensures { result.now ≡ self.now }
    {
        self.names.as_slice()
    }
}

/// The rules that a rule may be combined with.
#[derive(Drop)]
pub enum Names {
    /// Every rule.
    All,
    /// The rules of a list.
    Of(RuleList),
}
