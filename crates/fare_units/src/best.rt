//! Best: which of two constructions is before the other, the plain walk over all of a trip, and what quotes by it.

pub(crate) mod order;
pub(crate) mod plain;
pub(crate) mod quoter;
