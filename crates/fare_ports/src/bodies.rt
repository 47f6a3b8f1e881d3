ghost use Rattle.std.specs.Prelude.{◌≡◌, ◌<◌, ◌==◌, [], ◌∷◌, ◌++◌, length, slice_get, slice_set, option_copied};
ghost use Rattle.std.specs.Prelude.{IsSome, IfOk, OnOk, OnErr, ◌↔◌};

use crate::bytes::Bytes;
use crate::no_memory::NoMemory;
use std::alloc::Global;
use std::marker::Model;

/// A list of byte lists that grows, or refuses and stays as it was.
#[derive(Drop)]
pub struct Bodies {
    alloc: Global,
    items: Vec<Bytes>,
}

impl Model for Bodies {
    ghost use Rattle.std.specs.Prelude.{List, ℕ};

    ghost Value = { List (List ℕ) };

    ghost view = { λ b. b.items.items };
}

impl Bodies {
    /// No body. It takes no memory.
    pub fn new(alloc: Global) -> Bodies
        ensures { result ≡ [] }
    {
        Bodies {
            alloc,
            items: Vec::new(alloc),
        }
    }

    /// Adds a body at the end.
    pub fn push(&mut self, body: &[u8]) -> Result<(), NoMemory>
        ensures ok { OnOk result (self.new ≡ self.old ++ body.now ∷ []) }
        ensures err { OnErr result (self.new ≡ self.old) }
    {
        let copy = copied(self.alloc, body)?;
        self.items.push(copy)?;
        Ok(())
    }

    /// The body at index `i`, counted from 0: none exactly where `i` isn't below the length.
    pub fn get(&self, i: usize) -> Option<&[u8]>
        ensures body { option_copied result ≡ slice_get self.now i }
        ensures there { IsSome result ↔ (i < length self.now) }
    {
        if i < self.items.len() {
            Some(self.items[i].as_slice())
        } else {
            None
        }
    }

    /// How many there are.
    pub fn len(&self) -> usize
        ensures { result ≡ length self.now }
    {
        self.items.len()
    }

    /// Whether there is none.
    pub fn is_empty(&self) -> bool
        ensures { result ≡ (length self.now == 0) }
    {
        self.items.is_empty()
    }

    /// The bodies, in order.
    pub fn into_items(self) -> Vec<Bytes>
        ensures { result.items ≡ self }
    {
        self.items
    }

    /// Puts another body at index `i`, counted from 0.
    pub fn set(&mut self, i: usize, body: &[u8]) -> Result<(), NoMemory>
        requires { i < length self.old }
        ensures ok { OnOk result (self.new ≡ slice_set self.old i body.now) }
        ensures err { OnErr result (self.new ≡ self.old) }
    {
        let copy = copied(self.alloc, body)?;
        self.items[i] = copy;
        Ok(())
    }
}

fn copied(alloc: Global, body: &[u8]) -> Result<Bytes, NoMemory>
    ensures { IfOk result (λ copy. copy ≡ body.now) }
{
    let mut copy = Bytes::new(alloc);
    copy.extend(body)?;
    Ok(copy)
}
