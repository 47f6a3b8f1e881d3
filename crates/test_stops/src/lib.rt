//! What a store holds after its disks stopped in the middle of a publication or of a migration, and how a desk goes on
//! after a refused sync: over disks in memory that pass so many calls on and no more. The crate has tests and nothing
//! else.
#![tactic(auto)]

#[cfg(test)]
mod mending;
#[cfg(test)]
mod migration;
#[cfg(test)]
mod tests;
