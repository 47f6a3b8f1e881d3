//! Constructions and their pricing units: what a lawful list of parts costs, which of two constructions is before the
//! other, and the best one of a trip, found by enumerating all.
//!
//! - `construction`: a list of at most `MOST_PARTS` parts, in memory of its own;
//! - `prices`: the minimum, sum, kind and price of a unit, and the price of a construction;
//! - `best`: the order of constructions, the walk over all of them, and the quoter that walks.
//!
//! Each of these stands on those above it. Whether a list of parts is lawful is told by `fare_lawful`.
#![tactic(auto)]

mod best;
mod construction;
mod prices;

pub use best::order::earlier;
pub use best::plain::{is_fruitless, plain_best};
pub use best::quoter::{PlainQuoter, Quoter};
pub use construction::Construction;
pub use fare_lawful::{
    MOST_PARTS, country, is_back, is_same_country, is_uncombined, lie_together, part_at,
    priced_back, start_of,
};
pub use fare_rules::{Broken, Part, UnitKind, UnitSheet};
pub use prices::circle::circle_minimum;
pub use prices::onward::{is_homeward, is_shut_unit, is_stranded, must_go_on};
pub use prices::price::MOST_UNIT_PRICE;
pub use prices::priced::{
    first_parts_advance, lawful_price, lawful_price_by, price_is_of_unbroken,
};
pub use prices::sheet::{unit_count, unit_sheet};
pub use prices::shut::{is_priceless, is_untimely, shut_price};
