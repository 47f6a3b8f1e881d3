//! The parts of a construction, each by its place, from 1.
//!
//! - `places`: a part, where it starts and ends, and its unit;
//! - `own`: the places of the parts of a unit;
//! - `fares`: the fares of parts, one way or half round trips;
//! - `countries`: which cities lie in one country;
//! - `direction`: which parts are priced back.

pub(crate) mod countries;
pub(crate) mod direction;
pub(crate) mod fares;
pub(crate) mod own;
pub(crate) mod places;
