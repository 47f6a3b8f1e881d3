//! Objects in memory behind the traits of `fare_ports`: what the desk reads, writes, keeps and answers, for whoever tries
//! it without the real devices.
//!
//! - `plain_*`: objects that never fail; `mem_*`: the same with a list of failing calls;
//! - `calls`, `failures`, `fail_at`, `room`: which calls of those fail, and what fits;
//! - `at_place`: what stands at a place is read from, or put into, for a door.
#![tactic(auto)]

mod at_place;
mod calls;
mod fail_at;
mod failures;
mod mem_door;
mod mem_keeper;
mod mem_sink;
mod mem_source;
mod plain_door;
mod plain_keeper;
mod plain_sink;
mod plain_source;
mod room;

pub use fail_at::FailAt;
pub use fare_ports::{
    Bodies, Bytes, Door, Failed, FirstName, Gate, KeepFault, Keeper, MOST_HELD, MOST_TEXT,
    NoMemory, OpenGate, ReadEnd, Sink, Source, raised, read_all, write_all,
};
pub use mem_door::MemDoor;
pub use mem_keeper::MemKeeper;
pub use mem_sink::MemSink;
pub use mem_source::MemSource;
pub use plain_door::PlainDoor;
pub use plain_keeper::PlainKeeper;
pub use plain_sink::PlainSink;
pub use plain_source::PlainSource;
