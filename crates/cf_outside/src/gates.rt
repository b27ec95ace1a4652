//! Where a worker passes before each of its holds.
use cf_ids::ThreadId;

/// Where the worker of a thread passes before each of its holds. It promises nothing, and may hold a worker up.
pub trait Gate: Sync {
    /// Called by the worker of thread `t` before its hold of this number, counted from 0.
    fn pass(&self, t: ThreadId, n: u64);
}

/// A gate that holds nobody up. The program uses it.
#[derive(Clone, Copy)]
pub struct OpenGate;

impl Gate for OpenGate {
    fn pass(&self, _t: ThreadId, _n: u64) {}
}
