//! The commands that need no door, over any source and store: what each comes to, an exit and a text. What they answer
//! is defined in `specs/` (`PriceOutcome`, `StoreOutcome`, `CheckOutcome`, `PairOutcome`, `DrillOutcome`).
//!
//! - `exit`, `refused`: what a run ends in, and the ends for what the crates below refuse; `fault_line`: the status and
//!   the line on standard error of each; `outcome`: an exit with the text that is written before;
//! - `context`: what every command works with; `limits`: how many bytes sources may hold; `source`, `input`:
//!   the bytes of the source, and the itinerary and the tariff in them; `store`: the book of a store;
//! - `quote`: what is asked of a trip over a book, as a plain text or in JSON;
//! - `pricing`, `publishing`, `listing`, `exporting`, `stored_quotes`, `drilling`, `migration`, `checking`,
//!   `differences`, `comparing`: the commands, a file each, and `numbered_line`, the line that two of them answer.
#![tactic(auto)]

mod checking;
mod comparing;
mod context;
mod differences;
mod drilling;
mod exit;
mod exporting;
mod fault_line;
mod input;
mod limits;
mod listing;
mod migration;
mod numbered_line;
mod outcome;
mod pricing;
mod publishing;
mod quote;
mod refused;
mod source;
mod store;
mod stored_quotes;

pub use checking::check;
pub use comparing::{Comparison, compare};
pub use context::Context;
pub use differences::diff;
pub use drilling::drill;
pub use exit::Exit;
pub use exporting::export;
pub use fault_line::fault_text;
pub use limits::{MOST_ITINERARY, MOST_PRICED};
pub use listing::list;
pub use migration::migrate;
pub use outcome::Outcome;
pub use pricing::price;
pub use publishing::publish;
pub use quote::Question;
pub use store::book_of;
pub use stored_quotes::stored_quote;
