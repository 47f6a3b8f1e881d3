ghost use Rattle.std.specs.Prelude.{◌≡◌};

use std::marker::Model;

/// Counts the calls on one object that can fail, from 1, and knows which of them do.
#[derive(Drop)]
pub struct Calls {
    fail: Vec<u32>,
    made: u32,
}

impl Model for Calls {
    ghost use Rattle.fare_outside.specs.Calls.{CallList};

    ghost Value = { CallList };

    ghost view = { λ c. record { fail = c.fail.items; made = c.made } };
}

impl Calls {
    ghost use Rattle.fare_outside.specs.Calls.{fails_next, after_call};

    /// No call made yet; those of these numbers fail, and 4,294,967,295 stands for all from that
    /// one on.
    pub fn new(fail: Vec<u32>) -> Calls
        ensures { result ≡ record { fail = fail.items; made = 0 } }
    {
        Calls { fail, made: 0 }
    }

    /// Makes the next call, and says whether it fails.
    pub fn next(&mut self) -> bool
        ensures fails { result ≡ fails_next self.old }
        ensures made { self.new ≡ after_call self.old }
    {
        self.made = self.made.saturating_add(1);
        self.fail.contains(&self.made)
    }
}
