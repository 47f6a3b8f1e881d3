//! The check of a list of records: the kinds of a record, each as its own test, whether no record has one, and the
//! first fault.

mod check_fault;
mod check_kind;
mod clash;
mod clear;
mod keys;
mod kind;
mod names;
mod numbers;
mod seen;

pub use check_fault::CheckFault;
pub use check_kind::CheckKind;
pub(crate) use kind::first_fault;
pub use kind::{fault_at, has_kind};
pub use names::is_unknown_city;
