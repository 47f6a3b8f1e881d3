//! The rule book: every rule of fare construction that more than one crate cites, as definitions in `specs/`, and the
//! plain data that the rules speak of. It computes nothing itself; its public functions are the laws of the rules.
//!
//! - `part`, `amount`, `miles`, `unit_sheet`: a part of a construction, what it costs, its miles, and what a unit
//!   costs;
//! - `rule`: the 22 rules of a lawful construction, each with its number; `broken`: the first one that is broken;
//! - `limits`: how great the numbers of the rules can be;
//! - `laws`: what follows from the rules, each as the contract of a function that computes nothing.
#![tactic(auto)]

mod amount;
mod broken;
mod laws;
mod limits;
mod miles;
mod part;
mod rule;
mod unit_sheet;

pub use amount::Amount;
pub use broken::Broken;
pub use laws::{
    best_is_one, best_of_one_sector, circle_minimum_takes_each_end, edition_is_valid,
    first_part_is_a_choice, free_rule_asks_nothing, lawful_in_words, no_reference_to_itself,
    one_way_unit_costs_its_fare, order_is_total, parts_have_amounts, price_is_bounded,
    whole_year_holds_each_day,
};
pub use limits::{MOST_AMOUNT, MOST_POINTS, PRICE_LIMIT};
pub use miles::{Mileage, Miles};
pub use part::Part;
pub use rule::Rule;
pub use unit_sheet::{UnitKind, UnitSheet};
