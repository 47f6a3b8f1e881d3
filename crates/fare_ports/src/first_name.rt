ghost use Rattle.std.specs.Prelude.{◌≡◌, None, OnOk, OnErr};
ghost use Rattle.fare_ports.specs.Keeper.{first_name};

use crate::no_memory::NoMemory;
use std::alloc::Global;
use std::marker::Model;

/// The name by which a store was opened first, if it was.
#[derive(Drop)]
pub struct FirstName {
    text: Option<String>,
}

impl Model for FirstName {
    ghost use Rattle.std.specs.Prelude.{List, ℕ, Option, option_map, string_bytes};

    ghost Value = { Option (List ℕ) };

    ghost view = { λ n. option_map string_bytes n.text };
}

impl FirstName {
    /// No name yet. It takes no memory.
    pub fn new() -> FirstName
        ensures { result ≡ None }
    {
        FirstName { text: None }
    }

    /// Keeps this name, unless one is kept.
    pub fn keep(&mut self, alloc: Global, name: &str) -> Result<(), NoMemory>
        ensures ok { OnOk result (self.new ≡ first_name self.old name.now) }
        ensures err { OnErr result (self.new ≡ self.old) }
    {
        if self.text.is_none() {
            self.text = Some(String::from_str(alloc, name)?);
        }
        Ok(())
    }
}
