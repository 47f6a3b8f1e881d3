//! What a walk over constructions wants where the first few are asked for: those by Order, up to a limit.

ghost use Rattle.std.specs.Prelude.{◌≡◌, ◌≤◌};
ghost use Rattle.fare_units.specs.Walk.{Completes};
ghost use Rattle.fare_floors.specs.Ahead.{IsStage};
ghost use Rattle.fare_ranking.specs.Ranking.{is_dear};
ghost use Rattle.fare_best.specs.Walked.{IsRanked, IsWalked};

use fare_branch::Seeker;
use fare_codes::MOST_BEST;
use fare_component::Table;
use fare_floors::{Partial, Stage};
use fare_ranking::BestList;

/// What a walk wants.
#[derive(Clone, Copy)]
pub(crate) struct Wanted {
    /// How many constructions.
    pub(crate) count: usize,
    /// What each may cost at most, in hundredths.
    pub(crate) limit: u64,
}

/// Whether what costs no less than a floor is not wanted: it costs more than the limit, or than the last one wanted of
/// those that were found.
fn is_dear(wanted: Wanted, found: &BestList, floor: u64) -> bool
    ensures { result ≡ is_dear wanted.count wanted.limit found.now floor }
{
    wanted.limit < floor || found.is_beyond(wanted.count, floor)
}

impl Seeker<BestList> for Wanted {
    ghost use Rattle.std.specs.Prelude.{◌≤◌};
    ghost use Rattle.fare_codes.specs.declared.limits.TheConstants.{MOST_BEST};
    ghost use Rattle.fare_best.specs.declared.walking.Wanted.{Wanted};
    ghost use Rattle.fare_best.specs.Walked.{IsListed, IsPassed, IsRanked};

    ghost Fixed = { Wanted };

    ghost fixed = { λ wanted found. wanted };

    ghost holds = { λ tariff trip wanted found. (1 ≤ wanted.count) × (wanted.count ≤ MOST_BEST)
        × IsRanked tariff trip wanted.count found };

    ghost passed = { λ wanted found parts price. IsPassed wanted.count wanted.limit found parts price };

    ghost has = { λ wanted found parts. IsListed found parts };

    fn is_dear(&self, found: &mut BestList, floor: u64) -> bool {
        is_dear(*self, found, floor)
    }

    fn is_behind(&self, found: &BestList, front: &Partial, floor: u64) -> bool {
        found.is_behind(self.count, front.construction(), floor)
    }

    fn take(&mut self, found: &mut BestList, _table: &Table, front: &Partial, price: u64) {
        found.insert(self.count, front.to_construction(), price)
    }
}

/// Walks over all constructions that have the parts of a stage as their first ones, and keeps the first of those that
/// it finds.
pub(crate) fn walk(stage: &Stage, wanted: Wanted, found: &mut BestList)
    requires stage { IsStage stage.now.table.now stage.now.homing.now stage.now.front.now stage.now.ahead.now }
    requires some { 1 ≤ wanted.count }
    requires few { wanted.count ≤ MOST_BEST }
    requires ranked { IsRanked stage.now.table.now.edition stage.now.table.now.trip wanted.count found.old }
    ensures { IsWalked stage.now.table.now.edition stage.now.table.now.trip wanted.count wanted.limit
        (Completes stage.now.front.now) found.new }
{
    let mut seeker = wanted;
    fare_branch::walk(stage, &mut seeker, found)
}
