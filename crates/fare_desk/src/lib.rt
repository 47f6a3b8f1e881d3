//! The desk: what a book of published editions answers to the requests of clients, plain or in JSON. The routes of
//! requests are defined in `specs/` (`Routes`), and so is what is answered without a change (`Viewing`, by `Quoting`
//! and `Batching`), and what a desk does (`Publishing`). The texts are those of `fare_answers` and `fare_json`.
//!
//! - `routes`: the routes of requests; `request_parts`: what a request says; `replies`: the forms of replies, and
//!   refusals;
//! - `editions`: the replies that show editions; `clerk`: what answers itineraries in one form;
//! - `batch`, `batch_body`: the reply to a batch of them;
//! - `batcher`: what answers the items of a batch; `one_by_one`, `side_by_side`: the two that there are;
//! - `front`: what is answered without a change; `publishing`: the reply to a publication;
//! - `desk`: the desk itself, over a book and the keeper of its bodies.
#![tactic(auto)]

mod batch;
mod batch_body;
mod batcher;
mod clerk;
mod desk;
mod editions;
mod front;
mod one_by_one;
mod publishing;
mod replies;
mod request_parts;
mod routes;
mod side_by_side;

pub use batch::batch_reply;
pub use batcher::{Batcher, MOST_ITEMS};
pub use clerk::{Clerk, fault_reply, refusal_reply};
pub use desk::Desk;
pub use editions::{edition_number, no_such_edition_reply, number_text};
pub use fare_answers::{QuoteFault, list_text, quote_text};
pub use front::DeskFront;
pub use replies::{
    body_reply, form_of, is_method, line_reply, method_reply, no_route_reply, refused_reply,
};
pub use request_parts::RequestParts;
pub use routes::{Route, Routes};
pub use side_by_side::SideBySide;
