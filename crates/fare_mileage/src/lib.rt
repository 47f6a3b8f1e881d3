//! What the mileage of a span asks of a fare: nothing for one sector, else its ticketed miles less the extra mileage
//! allowance, compared with the miles that are permitted between its ends and with the steps of the mileage surcharge.
//! No call takes memory.
//!
//! - `miles`: the ticketed miles of a span, and the extra mileage allowance;
//! - `steps`: the surcharge for miles above those that are permitted;
//! - `spans`: what the mileage of a span asks.
#![tactic(auto)]

mod miles;
mod spans;
mod steps;

pub use fare_rules::{Mileage, Miles};
pub use miles::miles_between;
pub use spans::{mileage, mileage_by};
