//! Fare components: what each fare that may be used for a span of a trip costs there. A component's amount is its base
//! with the mileage surcharge. The conditions under which a fare may be used are those of `fare_conditions`.
//!
//! - `table`: what each fare costs for each span, computed once;
//! - `laws`: what follows of the entries of a table, with nothing to run.
#![tactic(auto)]

mod laws;
mod table;

pub use fare_conditions::applicable;
pub use fare_rules::Amount;
pub use laws::{
    entries_are_of_fares, entries_have_one_direction, entries_rise, fares_with_amounts_are_entries,
};
pub use table::{Entry, MOST_ENTRIES, Table};
