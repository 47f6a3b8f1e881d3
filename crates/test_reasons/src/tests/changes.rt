//! What changed between editions, and what trips cost in them.

mod changes;
mod compares;
mod costs;
mod diffs;
