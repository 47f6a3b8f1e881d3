/// Why a round takes no further connection.
#[derive(Clone, Copy, Debug, PartialEq, Eq)]
pub enum DoorEnd {
    /// It has as many as it may take, or none is known to wait.
    Open,
    /// None will come.
    NoMore,
    /// The door failed, and its count of faults rose.
    Failed,
}
