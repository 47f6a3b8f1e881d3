ghost use Rattle.std.specs.Prelude.{◌≡◌, ◌≤◌, ◌<◌, ◌++◌, ◌∷◌, [], ◌↔◌, List, IsOk, IfErr, OnOk, OnErr, length, take};

use fare_lawful::MOST_PARTS;
use fare_rules::Part;
use std::marker::Model;

/// What stands in the room that no part takes.
const BLANK: Part = Part {
    end: 0,
    unit: 0,
    fare: 0,
};

/// A construction: a list of at most `MOST_PARTS` parts. It takes no memory.
#[derive(Drop)]
pub struct Construction {
    parts: [Part; MOST_PARTS],
    count: usize,
}

impl Model for Construction {
    ghost use Rattle.std.specs.Prelude.{◌≤◌, List, take};
    ghost use Rattle.fare_rules.specs.declared.part.Part.{Part};
    ghost use Rattle.fare_lawful.specs.declared.limits.TheConstants.{MOST_PARTS};

    ghost Value = { List Part };

    ghost view = { λ c. take c.count c.parts };

    ghost invariant = { λ c. c.count ≤ MOST_PARTS };
}

impl Construction {
    /// A construction without parts.
    pub fn new() -> Construction
        ensures { result ≡ [] }
    {
        Construction {
            parts: [BLANK; MOST_PARTS],
            count: 0,
        }
    }

    /// Puts a part at the end, or hands it back exactly where `MOST_PARTS` are held; then nothing changes.
    pub fn try_push(&mut self, p: Part) -> Result<(), Part>
        ensures room { IsOk result ↔ (length self.old < MOST_PARTS) }
        ensures pushed { OnOk result (self.new ≡ self.old ++ p ∷ []) }
        ensures unchanged { OnErr result (self.new ≡ self.old) }
        ensures handed_back { IfErr result (λ part. part ≡ p) }
    {
        if self.count == MOST_PARTS {
            return Err(p);
        }
        self.parts[self.count] = p;
        self.count += 1;
        Ok(())
    }

    /// The same parts with one more at the end.
    pub(crate) fn with(&self, part: Part) -> Construction
        requires room { length self.now < MOST_PARTS }
        ensures { result ≡ self.now ++ part ∷ [] }
    {
        let mut longer = self.copy();
        longer.parts[longer.count] = part;
        longer.count += 1;
        longer
    }

    /// The same parts.
    pub(crate) fn copy(&self) -> Construction
        ensures { result ≡ self.now }
    {
        Construction {
            parts: self.parts,
            count: self.count,
        }
    }

    /// Its parts, in the order of travel.
    pub fn parts(&self) -> &[Part]
        ensures parts { result.now ≡ self.now }
        ensures few { length result.now ≤ MOST_PARTS }
    {
        &self.parts[..self.count]
    }
}
