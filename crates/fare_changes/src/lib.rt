//! What changed between two editions, and what a batch of trips costs in each. The two texts are defined in `specs/`:
//! what changed (`Diff`, over `SameRecord`, and `DiffText`), and what trips cost (`Items`, `Compared`, `CompareText`).
//!
//! - `same`: when two records are equal;
//! - `held`: where an edition holds a record;
//! - `missing`: the lines of the records that one edition alone has;
//! - `diff`, `laws`: the text of what changed, and what follows of it for every two editions;
//! - `items`: the items of a batch, from its text;
//! - `compared`, `outcome`: what one item costs in two editions, and what became of it;
//! - `comparer`, `unknown`, `totals`: two editions, the points that neither knows, and the totals of an item in both;
//! - `side_by_side`: items that are answered side by side;
//! - `watch`: who is told how many items are done;
//! - `change`, `item_line`, `sums`, `sum_line`: the lines of the items, and the last line;
//! - `compare`: the whole text that compares what trips cost.
#![tactic(auto)]

mod change;
mod compare;
mod compared;
mod comparer;
mod diff;
mod held;
mod item_line;
mod items;
mod laws;
mod missing;
mod outcome;
mod same;
mod side_by_side;
mod sum_line;
mod sums;
mod totals;
mod unknown;
mod watch;

pub use compare::compare_text;
pub use compared::Compared;
pub use comparer::Comparer;
pub use diff::diff_text;
pub use items::items_of;
pub use laws::{lines_count_all, lines_give_the_other, records_stand_once};
pub use outcome::Outcome;
pub use watch::{Unwatched, Watch};
