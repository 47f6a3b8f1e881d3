//! Everything that the desk reads, writes, keeps or answers lies behind five traits: a source, a sink, a keeper, a door
//! and a gate. This layer states what may be known of each.
//!
//! - `source`, `sink`, `keeper`, `door`, `gate`: the traits, with the words of their clauses in `specs/`;
//! - `no_memory`, `failed`: want of memory, and a call that failed;
//! - `reading`, `writing`: a whole source, and a whole text, over any source and sink;
//! - `bytes`, `bodies`: lists that grow, or refuse and stay as they were;
//! - `first_name`: the name by which a store was opened first;
//! - `count`: how failures are counted;
//! - `limits`: how long a text may be that is taken whole.
#![tactic(auto)]

mod bodies;
mod bytes;
mod count;
mod door;
mod failed;
mod first_name;
mod gate;
mod keeper;
mod limits;
mod no_memory;
mod reading;
mod sink;
mod source;
mod writing;

pub use bodies::Bodies;
pub use bytes::Bytes;
pub use count::raised;
pub use door::{Door, MOST_HELD};
pub use failed::Failed;
pub use first_name::FirstName;
pub use gate::{Gate, OpenGate};
pub use keeper::{KeepFault, Keeper};
pub use limits::MOST_TEXT;
pub use no_memory::NoMemory;
pub use reading::{ReadEnd, read_all};
pub use sink::Sink;
pub use source::Source;
pub use writing::write_all;
