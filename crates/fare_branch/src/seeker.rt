//! What a walk over constructions looks for.

ghost use Rattle.std.specs.Prelude.{◌≡◌, ℕ, true, List};
ghost use Rattle.fare_trip.specs.Itinerary.{Itinerary};
ghost use Rattle.fare_tariff.specs.Tariff.{Tariff};
ghost use Rattle.fare_rules.specs.declared.part.Part.{Part};
ghost use Rattle.fare_rules.specs.Best.{IsLawful};
ghost use Rattle.fare_units.specs.Walk.{IsList};
ghost use Rattle.fare_branch.specs.Sought.{AllBehindPassed, AllPassedFrom, IsStill, IsWalk};

use fare_component::Table;
use fare_floors::Partial;

/// What a walk over constructions looks for: it takes those that it comes to, and says which aren't wanted any more, by
/// what is known (`K`). Its `fixed` is what no call changes, and `holds` what is true of it at each. A construction
/// with its price is `passed` where it was taken, or is known not to be wanted; and `has` are the lists that it holds.
pub trait Seeker<K> {
    ghost Fixed: { Type 0 };

    ghost fixed: { Self → K → Fixed };

    ghost holds: { Tariff → Itinerary → Self → K → Type 0 };

    ghost passed: { Self → K → List Part → ℕ → Type 0 };

    ghost has: { Self → K → List Part → Type 0 };

    /// Whether nothing is wanted that costs no less than a floor.
    fn is_dear(&self, known: &mut K, floor: u64) -> bool
        ensures fixed { fixed self.now known.new ≡ fixed self.now known.old }
        ensures holds { (tariff : Tariff) (trip : Itinerary) → holds tariff trip self.now known.old
            → holds tariff trip self.now known.new }
        ensures still { IsStill (passed self.now known.old) (has self.now known.old) (passed self.now known.new)
            (has self.now known.new) }
        ensures dear { result ≡ true → (tariff : Tariff) (trip : Itinerary) → holds tariff trip self.now known.old
            → AllPassedFrom floor (passed self.now known.new) };

    /// Whether no completion of some parts is wanted that costs no less than a floor.
    fn is_behind(&self, known: &K, front: &Partial, floor: u64) -> bool
        ensures { result ≡ true → (tariff : Tariff) (trip : Itinerary) → holds tariff trip self.now known.now
            → AllBehindPassed front.now floor (passed self.now known.now) };

    /// Takes a lawful construction with its price, where it is wanted.
    fn take(&mut self, known: &mut K, table: &Table, front: &Partial, price: u64)
        requires holds { holds table.now.edition table.now.trip self.old known.old }
        requires lawful { IsLawful table.now.edition table.now.trip front.now price }
        ensures fixed { fixed self.new known.new ≡ fixed self.old known.old }
        ensures holds { holds table.now.edition table.now.trip self.new known.new }
        ensures walk { IsWalk table.now.edition table.now.trip (IsList front.now) (passed self.old known.old)
            (has self.old known.old) (passed self.new known.new) (has self.new known.new) };
}
