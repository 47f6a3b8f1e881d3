//! Where a search stands: the first parts of constructions of a trip, with what is ahead of them.

use crate::ahead::Ahead;
use crate::partial::Partial;
use fare_component::Table;
use fare_homing::Homing;

/// First parts with what is ahead of them, by the table of their trip and what is behind its points.
#[derive(Clone, Copy)]
pub struct Stage<'a> {
    /// The table of the trip.
    pub table: &'a Table<'a>,
    /// What is behind each of its points at least.
    pub homing: &'a Homing,
    /// The first parts.
    pub front: &'a Partial,
    /// What they cost at least, and what is behind the part that comes next.
    pub ahead: &'a Ahead,
}
