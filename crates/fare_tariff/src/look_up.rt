//! The look-ups of an edition, each by the key of a record, which the check shares.

mod fares;
mod likes;
mod miles;
mod places;
mod rules;
mod seek;

pub(crate) use fares::{has_key, nth_place, number_at};
pub(crate) use places::city_in;
pub(crate) use seek::{Sought, first_fare, is_sought};
