//! Quotations, lists and the texts of first constructions over books of one edition.

mod computed;
mod first;
mod quotations;
mod worked;
