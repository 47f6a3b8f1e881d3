//! Prices: the circle minimum, what a unit costs by its kind, its sheet, and the price of a lawful construction.

pub(crate) mod circle;
pub(crate) mod onward;
pub(crate) mod price;
pub(crate) mod priced;
pub(crate) mod sheet;
pub(crate) mod shut;
