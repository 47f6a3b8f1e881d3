//! What would make trips cheaper, over books of one edition.

mod computed;
mod texts;
mod worked;
