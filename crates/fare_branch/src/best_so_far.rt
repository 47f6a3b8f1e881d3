//! The best construction that was found so far, as what a walk looks for. What can't be before it, or costs more than
//! the least price known, isn't wanted.

ghost use Rattle.std.specs.Prelude.{◌≡◌, true};
ghost use Rattle.fare_rules.specs.Best.{IsLawful};
ghost use Rattle.fare_units.specs.Walk.{IsList, TakesBetter};
ghost use Rattle.fare_branch.specs.Shares.{is_elsewhere};
ghost use Rattle.fare_branch.specs.Walked.{IsBestWalk, IsUnderAll, is_beaten, is_no_sooner};

use crate::bound::Bound;
use crate::seeker::Seeker;
use crate::share::{MARKED_PARTS, Share, is_elsewhere};
use fare_component::Table;
use fare_floors::Partial;
use fare_units::{Construction, earlier};

/// The best construction that was found, with its price.
pub(crate) type Found = Option<(Construction, u64)>;

/// The better one of a construction and the best that was found.
#[tactic(auto, using(fare_units::proofs::WalkLemmas::better_of_none, fare_units::proofs::WalkLemmas::better_of_earlier, fare_units::proofs::WalkLemmas::better_of_later))]
fn better(front: &Partial, price: u64, best: Found) -> Found
    ensures { TakesBetter front.now price best result }
{
    match best {
        None => Some((front.to_construction(), price)),
        Some((parts, least)) => {
            if earlier(front.construction(), price, &parts, least) {
                return Some((front.to_construction(), price));
            }
            Some((parts, least))
        }
    }
}

/// Whether some parts are no sooner than a construction that costs no more than their floor: they are as long, and not
/// before it at one price.
fn is_no_sooner(parts: &Construction, price: u64, front: &Partial, floor: u64) -> bool
    ensures { result ≡ is_no_sooner parts.now price front.now floor }
{
    price <= floor
        && front.parts().len() == parts.parts().len()
        && !earlier(front.construction(), price, parts, price)
}

/// Whether no completion of some parts that costs no less than a floor is before what was found: that is before each of
/// them, or they are no sooner than it.
fn is_beaten(best: &Found, front: &Partial, floor: u64) -> bool
    ensures { result ≡ is_beaten best.now front.now floor }
{
    match best {
        None => false,
        Some((parts, price)) => {
            earlier(parts, *price, front.construction(), floor)
                || is_no_sooner(parts, *price, front, floor)
        }
    }
}

/// Whether all completions of some parts belong to another share. Longer parts than those by which it is told were seen
/// when they had as many.
fn is_other(share: Share, front: &Partial) -> bool
    ensures { result ≡ true → is_elsewhere share front.now ≡ true }
{
    front.parts().len() == MARKED_PARTS && is_elsewhere(share, front.parts())
}

/// Tells the price of a lawful construction, and keeps it where it is before the best that was found.
pub(crate) fn keep<B: Bound>(
    table: &Table,
    front: &Partial,
    price: u64,
    best: Found,
    bound: &mut B,
) -> Found
    requires lawful { IsLawful table.now.edition table.now.trip front.now price }
    requires under { IsUnderAll table.now.edition table.now.trip (B.fixed bound.old) }
    ensures fixed { B.fixed bound.new ≡ B.fixed bound.old }
    ensures walk { IsBestWalk table.now.edition table.now.trip (IsList front.now) (B.least bound.old) best
        (B.least bound.new) result }
{
    let _trip = table.trip();
    bound.found(price);
    better(front, price, best)
}

/// A seeker of the best construction of a share, by what a bound knows of the least price.
#[derive(Drop)]
pub(crate) struct BestSoFar {
    pub(crate) share: Share,
    /// The least price that was known at its begin.
    pub(crate) known: u64,
    pub(crate) found: Found,
}

impl<B: Bound> Seeker<B> for BestSoFar {
    ghost use Rattle.std.specs.Prelude.{ℕ, ◌≤◌};
    ghost use Rattle.fare_branch.specs.declared.share.Share.{Share};
    ghost use Rattle.fare_branch.specs.Shares.{IsPassedIn};
    ghost use Rattle.fare_branch.specs.Walked.{IsHeld, IsTold};

    ghost Fixed = { ℕ × Share × ℕ };

    ghost fixed = { λ best bound. (B.fixed bound, best.share, best.known) };

    ghost holds = { λ tariff trip best bound. IsUnderAll tariff trip (B.fixed bound)
        × IsTold tariff trip (B.least bound) best.found × (B.least bound ≤ best.known) };

    ghost passed = { λ best bound parts price. IsPassedIn best.share (B.least bound) best.found parts price };

    ghost has = { λ best bound parts. IsHeld best.found parts };

    fn is_dear(&self, bound: &mut B, floor: u64) -> bool {
        bound.seen() < floor
    }

    fn is_behind(&self, _bound: &B, front: &Partial, floor: u64) -> bool {
        is_other(self.share, front) || is_beaten(&self.found, front, floor)
    }

    fn take(&mut self, bound: &mut B, table: &Table, front: &Partial, price: u64) {
        let best = self.found.take();
        self.found = keep(table, front, price, best, bound);
    }
}
