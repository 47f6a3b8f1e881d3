//! Editions in an SQLite database: a keeper over one table, whose rows are the bodies by place.
//!
//! - `sqlite_keeper`: the keeper over any connection, in memory or on a disk;
//! - `named_keeper`: the keeper that opens the database of a name, by its `opener`, and again where that was shut;
//!   `if_there`: its calls on a place, where it isn't known which places there are;
//! - `file_opener`: the opener of database files; `found`: what a file holds as it is found;
//! - `table`: what a keeper does to the table; `statements`: the statements on it, each a call of its own;
//! - `form`: whether a database holds just that table, or nothing yet;
//! - `count`: what a refused statement means to a keeper, and how its failures are counted.
#![tactic(auto)]

mod count;
mod file_opener;
mod form;
mod found;
mod if_there;
mod named_keeper;
mod opener;
mod sqlite_keeper;
mod statements;
mod table;

pub use file_opener::{FileKeeper, FileOpener};
pub use found::FoundFile;
pub use named_keeper::NamedKeeper;
pub use opener::Opener;
pub use sqlite_disk::Wary;
pub use sqlite_keeper::SqliteKeeper;
