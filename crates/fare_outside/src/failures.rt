ghost use Rattle.std.specs.Prelude.{◌≡◌, option_copied, find};
ghost use Rattle.fare_outside.specs.Failures.{is_failure_of};

use crate::fail_at::FailAt;
use std::marker::Model;

/// Counts the calls on one keeper, from 1, and knows which of them fail and how.
#[derive(Drop)]
pub struct Failures {
    fail: Vec<FailAt>,
    made: u32,
}

impl Model for Failures {
    ghost use Rattle.fare_outside.specs.Failures.{FailureList};

    ghost Value = { FailureList };

    ghost view = { λ f. record { fail = f.fail.items; made = f.made } };
}

impl Failures {
    ghost use Rattle.fare_outside.specs.Failures.{next_failure, after_next};

    /// No call made yet.
    pub fn new(fail: Vec<FailAt>) -> Failures
        ensures { result ≡ record { fail = fail.items; made = 0 } }
    {
        Failures { fail, made: 0 }
    }

    /// Makes the next call, and gives its failure, where it is listed; of two for one call the first counts.
    pub fn next(&mut self) -> Option<FailAt>
        ensures fails { result ≡ next_failure self.old }
        ensures made { self.new ≡ after_next self.old }
    {
        self.made = self.made.saturating_add(1);
        failure_of(&self.fail, self.made).copied()
    }
}

/// The first listed failure of the call of this number.
fn failure_of(fail: &[FailAt], number: u32) -> Option<&FailAt>
    ensures { option_copied result ≡ find (is_failure_of number) fail.now }
{
    fail.iter().find(|listed| listed.call == number)
}
