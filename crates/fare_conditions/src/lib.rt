//! The conditions under which a fare may be used for a span of a trip, each as its own test, and what it costs there. A
//! span begins at point `a` and ends at point `b`; a fare is priced back where it is paid from the end of a span to its
//! start. A component's amount is its base with the mileage surcharge. Nothing here takes memory.
//!
//! - `spans`: no surface sector, no city twice, and how many stopovers and transfers there are;
//! - `fares`: the cities, the indicator, the class, the carrier and the season of a fare;
//! - `indicators`: the indicators of all spans and the mileages of all sectors;
//! - `priced`: a trip in its edition, with these;
//! - `span`: what a span asks of every fare;
//! - `terms`: the stopovers, the transfers and the advance days that a rule allows;
//! - `surcharges`: the mileage, and whether a rule allows its surcharge;
//! - `component`: a span that a fare is priced for, out or back;
//! - `usable`: all of the conditions but the mileage;
//! - `amounts`: what the fare costs.
#![tactic(auto)]

mod amounts;
mod component;
mod fares;
mod indicators;
mod priced;
mod span;
mod spans;
mod surcharges;
mod terms;
mod usable;

pub use amounts::{amount_from, applicable};
pub use component::Component;
pub use fare_rules::Amount;
pub use fares::{
    covers_cabins, covers_carriers, has_indicator, in_season, is_half_round_trip, may_be_priced,
    runs_between,
};
pub use indicators::{Indicators, all_indicators};
pub use priced::Priced;
pub use span::{Span, span_of};
pub use spans::{holds_surface, repeats_city};
pub use surcharges::{excess_holds, mileage_holds, surcharge_by};
pub use terms::{advance_holds, stops_hold, terms_allow, terms_of_fare, transfers_hold};
pub use usable::{is_plain, suits_span};
