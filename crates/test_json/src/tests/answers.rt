//! Answers of worked examples, to the byte.

mod audits;
mod faults;
mod quotations;
mod worked;
