//! Trips of three to six sectors, one of each family.

pub mod backhauls;
pub mod circles;
pub mod end_on_end;
pub mod hub;
pub mod own_means;
pub mod units;
