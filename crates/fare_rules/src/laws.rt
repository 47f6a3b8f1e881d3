//! The laws of the rules: each function computes nothing, and its contract is a law that its caller may use.

mod component;
mod free;
mod lawful;
mod one_sector;
mod one_way;
mod order;
mod price;
mod reference;
mod valid;

pub use component::{first_part_is_a_choice, parts_have_amounts};
pub use free::{free_rule_asks_nothing, whole_year_holds_each_day};
pub use lawful::lawful_in_words;
pub use one_sector::best_of_one_sector;
pub use one_way::one_way_unit_costs_its_fare;
pub use order::{best_is_one, order_is_total};
pub use price::price_is_bounded;
pub use reference::{circle_minimum_takes_each_end, no_reference_to_itself};
pub use valid::edition_is_valid;
