ghost use Rattle.std.specs.Prelude.{◌≡◌, ◌≤◌, ℕ, min};

/// What stands for no price: no price of a construction is so great.
pub const NO_PRICE: u64 = u64::MAX;

/// What a search asks for the least price known, and tells each price that it finds. Its `fixed` is a number that no
/// call changes, and its `least` the least number that it was told or has answered, never below `fixed`.
pub trait Bound {
    ghost fixed: { Self → ℕ };

    ghost least: { Self → ℕ };

    /// A price that is known: no less than `fixed`, and no more than `least`, which becomes it.
    fn seen(&mut self) -> u64
        ensures fixed { fixed self.new ≡ fixed self.old }
        ensures floor { fixed self.new ≤ result }
        ensures at_most { result ≤ least self.old }
        ensures least { least self.new ≡ result };

    /// Tells a price, no less than `fixed`: `least` becomes the lesser of itself and the price.
    fn found(&mut self, price: u64)
        requires { fixed self.old ≤ price }
        ensures fixed { fixed self.new ≡ fixed self.old }
        ensures least { least self.new ≡ min (least self.old) price };

    ghost never_below: { (b : Self) → fixed b ≤ least b };
}
