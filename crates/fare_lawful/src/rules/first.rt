//! The search that each rule makes: the first place, or the first unit, at which a test is met.

ghost use Rattle.std.specs.Prelude.{◌≡◌, ℕ, Bool, ◌+◌, ◌≤◌, find};
ghost use Rattle.fare_rules.specs.Numbers.{numbers};

/// The first number from 1 to a last one that meets a test.
pub(crate) fn first_that<F: Fn(usize) -> bool>(last: usize, meets: F) -> Option<u8>
    requires small { last ≤ 255 }
    requires asked { (k : ℕ) → 1 ≤ k → k ≤ last → F.pre meets k }
    ensures { (test : ℕ → Bool) → ((k : ℕ) (r : Bool) → 1 ≤ k → k ≤ last → F.post meets k r → r ≡ test k)
        → result ≡ find test (numbers 1 (last + 1)) }
{
    for k in 1..last + 1 {
        if meets(k) {
            return Some(k as u8);
        }
    }
    None
}
