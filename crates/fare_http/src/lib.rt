//! Exchanges over a door: a request is read from the current connection, a handler answers it, and the answer is sent.
//! What one exchange does is defined in `specs/` (`Serving`).
//!
//! - `exchanging`: one exchange; `handler`: what answers requests;
//! - `head`, `piece`: the head, in whatever pieces its bytes come, or why there is none;
//! - `lengths`: how long the body is that a head announces;
//! - `body`: the body of that length;
//! - `request_parts`, `head_method`, `path_text`: the method, the path and the length of the body of a head;
//! - `request`: the whole request, or why there is none;
//! - `taken`: the request, or the fixed answer to what is wrong with the bytes;
//! - `reply`: what is answered;
//! - `sending`, `send_all`: the bytes of an answer, on the current connection;
//! - `laws`: what the bytes of a connection bring, in whatever pieces they come.
#![tactic(auto)]

mod body;
mod exchanging;
mod handler;
mod head;
mod head_method;
mod laws;
mod lengths;
mod path_text;
mod piece;
mod reply;
mod request;
mod request_parts;
mod send_all;
mod sending;
mod taken;

pub use exchanging::exchange;
pub use handler::{Front, Handler};
pub use head::{Head, MOST_FIELDS, MOST_HEAD, NoHead, read_head};
pub use laws::{fault_is_told, head_is_found, short_request_is_cut_off, whole_request_is_read};
pub use lengths::{BodyFault, body_length};
pub use path_text::PathText;
pub use piece::NoPiece;
pub use reply::{Allow, Form, Reply, Status};
pub use request::{NoRequest, Request, read_whole};
pub use sending::{Exchange, send};
pub use taken::{Taken, read_request};
