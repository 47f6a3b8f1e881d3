/// Where each worker stops for a moment before it starts. It has no effect on any answer.
pub trait Gate: Sync {
    /// The worker of that number is about to start.
    fn begin(&self, worker: u32);
}

/// A gate that lets every worker through at once.
#[derive(Clone, Copy, Debug, PartialEq, Eq)]
pub struct OpenGate;

impl Gate for OpenGate {
    fn begin(&self, _worker: u32) {}
}
