//! The real devices behind the traits of the outside: standard input and output, and a port. None of them tells what
//! it holds, so what they really read and write is trusted; each counts its failures.
//!
//! - `std_source`, `std_sink`: standard input and standard output;
//! - `tcp_door`: a door over a port of this machine's own address;
//! - `tcp_arrivals`: the connections that come in, which are read side by side;
//! - `tcp_peer`, `tcp_limits`: the other end of a connection, and how long it may keep the door waiting;
//! - `tcp_ahead`, `request_length`: what is read of a request before the door asks for it, and how long it is.
#![tactic(auto)]

mod request_length;
mod std_sink;
mod std_source;
mod tcp_ahead;
mod tcp_arrivals;
mod tcp_door;
mod tcp_limits;
mod tcp_peer;

pub use std_sink::StdSink;
pub use std_source::StdSource;
pub use tcp_door::TcpDoor;
pub use tcp_limits::TcpLimits;

#[cfg(test)]
mod tests;
