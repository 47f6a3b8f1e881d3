//! Trips of sixteen sectors or hardly fewer, with what a separate plain program finds.

pub mod barred;
pub mod camps;
pub mod chain;
pub mod chances;
pub mod circles;
pub mod units;
