//! The reasons among what the searches found.

ghost use Rattle.std.specs.Prelude.{◌≡◌, IfOk, OnOk, All, IsSome};
ghost use Rattle.fare_why.specs.Asked.{shown_at};

use crate::reason::Reason;
use fare_ports::NoMemory;
use std::alloc::Global;

/// What is shown at some places, in their order. Where one of them isn't there, memory was wanting.
#[tactic(auto, using(crate::proofs::Gathered::shown_more, crate::proofs::Gathered::there_more))]
pub(crate) fn gathered(
    alloc: Global,
    slots: Vec<Option<Option<Reason>>>,
) -> Result<Vec<Reason>, NoMemory>
    ensures shown { IfOk result (λ reasons. reasons.items ≡ shown_at slots.items) }
    ensures there { OnOk result (All IsSome slots.items) }
{
    let mut reasons = Vec::new(alloc);
    for slot in slots {
        match slot {
            None => return Err(NoMemory),
            Some(None) => {}
            Some(Some(reason)) => reasons.push(reason)?,
        }
    }
    Ok(reasons)
}
