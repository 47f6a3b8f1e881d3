use crate::check::CheckKind;

/// Why a list of records is no edition.
#[derive(Clone, Copy, Debug, PartialEq, Eq)]
pub enum CheckFault {
    /// Memory ran out.
    Memory,
    /// A record has a check kind, and no record before it has one.
    At {
        /// The record number: 2 for the first of the list.
        number: u32,
        /// The least kind of the record.
        kind: CheckKind,
    },
}
