//! The calls on a keeper that name a place, where it isn't known which places there are.

ghost use Rattle.std.specs.Prelude.{◌≡◌, IsTrue};

use fare_ports::{KeepFault, Keeper};
use std::alloc::Global;

/// The body at a place, which fails where there is none.
pub fn load_if_there<P: Keeper>(
    table: &mut P,
    alloc: Global,
    place: u32,
) -> Result<Vec<u8>, KeepFault>
    requires { IsTrue (P.ready table.old) }
    ensures ready { IsTrue (P.ready table.new) }
    ensures name { P.opened_as table.new ≡ P.opened_as table.old }
{
    let count = table.len(alloc)?;
    if place == 0 || place as u64 > count {
        return Err(KeepFault::Failed);
    }
    table.load(alloc, place)
}

/// Puts another body at a place, which fails where there is none.
pub fn replace_if_there<P: Keeper>(
    table: &mut P,
    alloc: Global,
    place: u32,
    body: &[u8],
) -> Result<(), KeepFault>
    requires { IsTrue (P.ready table.old) }
    ensures ready { IsTrue (P.ready table.new) }
    ensures name { P.opened_as table.new ≡ P.opened_as table.old }
{
    let count = table.len(alloc)?;
    if place == 0 || place as u64 > count {
        return Err(KeepFault::Failed);
    }
    table.replace(alloc, place, body)
}
