//! The desk behind a door: it listens, connections are taken in rounds that follow each other, and a summary says how
//! they ended. What this means is defined in `specs/`: rounds over any handler (`Service`), and over a desk (`Desk`).
//!
//! - `service`, `serve_fault`: what is asked for, and why connections aren't served to the end;
//! - `served_desk`: the desk that connections ask, with the quoter of the program;
//! - `served_front`: what it answers that changes nothing, the items of a batch side by side;
//! - `rounds`: rounds of connections, one after the other;
//! - `serving`: all of it, over the book of a store.
#![tactic(auto)]

mod rounds;
mod serve_fault;
mod served_desk;
mod served_front;
mod service;
mod serving;

pub use rounds::serve_rounds;
pub use serve_fault::ServeFault;
pub use served_desk::ServedDesk;
pub use served_front::ServedFront;
pub use service::Service;
pub use serving::serve;
