//! What a counter answers besides what its desk does: the first ten lawful constructions over a book of editions, the
//! audit of a presented line, and what would make a trip cheaper, each plain or in JSON; every fault of a tariff text,
//! and what changed between two editions. The routes are defined in `specs/` (`Routes`), and so are the replies
//! (`BestReply`, `AuditReply`, `WhyReply`, `CheckReply`, `DiffReply`), and what a counter does (`Counter`). The text of
//! the first ten is that of `fare_answers`, handed on here.
//!
//! - `routes`: the counter's own routes; `reasoner`: what finds the reasons of a trip;
//! - `best_replies`, `audit_replies`, `why_replies`, `tariff_replies`: the replies of these routes;
//! - `counter_front`: what is answered without a change;
//! - `counter`: the counter itself, over a desk.
//!
//! Each of these stands on those above it.
#![tactic(auto)]

mod audit_replies;
mod best_replies;
mod counter;
mod counter_front;
mod reasoner;
mod routes;
mod tariff_replies;
mod why_replies;

pub use counter::Counter;
pub use counter_front::CounterFront;
pub use fare_listing::best_text;
pub use reasoner::Reasoner;
pub use routes::{CounterRoute, CounterRoutes};
