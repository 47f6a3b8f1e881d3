//! The items of a batch.

ghost use Rattle.fare_ports.specs.Memory.{Gives};
ghost use Rattle.serde_json.specs.View.{view};
ghost use Rattle.fare_changes.specs.Items.{array_items, items_of, items_seen};
ghost use Rattle.serde_json.specs.Find.{as_array};

use fare_ports::NoMemory;
use fare_trip::{Member, TripFault, read_json};
use serde_json::Value;
use std::alloc::Global;

/// The items of a batch, from its text: `NotJson` comes exactly where the bytes are no UTF-8 or no JSON value, and then
/// `Bad` of the whole exactly where the value is no array. Want of memory may come for any text.
#[tactic(auto, unfolding(crate::specs::Items::items_of))]
pub fn items_of(alloc: Global, bytes: &[u8]) -> Result<Vec<Value>, TripFault>
    ensures { Gives TripFault.Memory items_seen result (items_of bytes.now) }
{
    match read_json(alloc, bytes) {
        Err(NoMemory) => Err(TripFault::Memory),
        Ok(None) => Err(TripFault::NotJson),
        Ok(Some(value)) => array_items(value),
    }
}

/// The items of a value, which has to be an array.
fn array_items(value: Value) -> Result<Vec<Value>, TripFault>
    ensures { Gives TripFault.Memory items_seen result (array_items (as_array (view value))) }
{
    match value {
        Value::Array(items) => Ok(items),
        _ => Err(TripFault::Bad(Member::Trip, 0)),
    }
}
