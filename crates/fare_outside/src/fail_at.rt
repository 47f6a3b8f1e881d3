/// A call of a keeper in memory that fails.
#[derive(Clone, Copy, Debug, PartialEq, Eq)]
pub struct FailAt {
    /// The number of the call, counted from 1; 4,294,967,295 stands for all from that one on.
    pub call: u32,
    /// Whether the body of a failed `append` or `replace` is kept.
    pub kept: bool,
}
