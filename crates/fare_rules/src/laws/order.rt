ghost use Rattle.std.specs.Prelude.{◌≡◌, ◌⊎◌, ℕ, List, Option, None, true, false};
ghost use Rattle.fare_trip.specs.Itinerary.{Itinerary};
ghost use Rattle.fare_tariff.specs.Tariff.{Tariff};
ghost use Rattle.fare_rules.specs.declared.part.Part.{Part};
ghost use Rattle.fare_rules.specs.Construction.{uncovered};
ghost use Rattle.fare_rules.specs.Order.{is_before};
ghost use Rattle.fare_rules.specs.Best.{IsBest, IsBestAnswer};

/// Order is a total order of the constructions that cover a trip, and has no cycle: none is before itself, what is
/// before one that is before a third is before the third, and of two that differ one is before the other.
pub fn order_is_total()
    ensures irreflexive { (xs : List Part) (price : ℕ) → is_before xs price xs price ≡ false }
    ensures transitive { (xs ys zs : List Part) (px py pz : ℕ) → is_before xs px ys py ≡ true
        → is_before ys py zs pz ≡ true → is_before xs px zs pz ≡ true }
    ensures total { (trip : Itinerary) (xs ys : List Part) (px py : ℕ) → uncovered trip xs ≡ None
        → uncovered trip ys ≡ None
        → (is_before xs px ys py ≡ true) ⊎ (is_before ys py xs px ≡ true) ⊎ ((xs ≡ ys) × (px ≡ py)) }
{}

/// Law of one best: at most one construction, with one price, is Best; and for each edition and trip there is an answer
/// that is Best, since the constructions that can be lawful are finitely many.
pub fn best_is_one()
    ensures one { (tariff : Tariff) (trip : Itinerary) (xs ys : List Part) (px py : ℕ) → IsBest tariff trip xs px
        → IsBest tariff trip ys py → (xs ≡ ys) × (px ≡ py) }
    ensures some { (tariff : Tariff) (trip : Itinerary)
        → (best : Option (List Part × ℕ)) × IsBestAnswer tariff trip best }
{}
