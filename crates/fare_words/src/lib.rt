//! The words of the command line: the command that they give, with the values of its options.
//!
//! - `command`: the eleven commands, with what their options hold; `store_name`: the name of a store; `asked`: what is
//!   asked of a trip;
//! - `limits`: how great a port and a count may be, and what stands for an option that is left out; the limits that
//!   others share stand in `fare_codes` and `fare_ports`;
//! - `name`: the command that the first word names;
//! - `definitions`: each command's definition in `clap`;
//! - `parsing`: what a definition finds in words; `options`: the options and flags in them, with the texts of their
//!   values;
//! - `numbers`: the numbers that options write;
//! - `values`: each option by its own name; `commands`: each command from its options;
//! - `words`: all of it in turn.
#![tactic(auto)]

mod asked;
mod command;
mod commands;
mod definitions;
mod limits;
mod name;
mod numbers;
mod options;
mod parsing;
mod store_name;
mod values;
mod words;

pub use asked::Asked;
pub use command::Command;
pub use store_name::StoreName;
pub use words::read_words;
