//! What follows of the entries of a table, with nothing to run.

ghost use Rattle.std.specs.Prelude.{◌≡◌, ◌<◌, ◌≤◌, ◌⊎◌, ℕ, true, None, AllPairs, Contains};
ghost use Rattle.fare_trip.specs.Itinerary.{Itinerary, count};
ghost use Rattle.fare_tariff.specs.Tariff.{Tariff};
ghost use Rattle.fare_component.specs.declared.table.entry.Entry.{Entry};
ghost use Rattle.fare_component.specs.Table.{ComesBefore, IsEntry, entries_of, entry_of, has_amount};

/// Each fare that has an amount for a span in some direction is one of its entries.
pub fn fares_with_amounts_are_entries()
    ensures { (tariff : Tariff) (trip : Itinerary) (a b number : ℕ) → a < b → b ≤ count trip
        → has_amount (entry_of tariff trip a b number) ≡ true
        → Contains (entries_of tariff trip a b) (entry_of tariff trip a b number) }
{}

/// Each entry of a span is that of its fare, which has an amount there in some direction.
pub fn entries_are_of_fares()
    ensures { (tariff : Tariff) (trip : Itinerary) (a b : ℕ) (entry : Entry)
        → Contains (entries_of tariff trip a b) entry
        → IsEntry tariff trip a b entry }
{}

/// An entry has an amount in one direction alone, since its fare runs from one end of the span and no city stands twice
/// in it.
pub fn entries_have_one_direction()
    ensures { (tariff : Tariff) (trip : Itinerary) (a b : ℕ) (entry : Entry)
        → Contains (entries_of tariff trip a b) entry
        → (entry.out ≡ None) ⊎ (entry.back ≡ None) }
{}

/// The entries of a span stand in record order, so no fare is one of them twice.
pub fn entries_rise()
    ensures { (tariff : Tariff) (trip : Itinerary) (a b : ℕ) → AllPairs ComesBefore (entries_of tariff trip a b) }
{}
