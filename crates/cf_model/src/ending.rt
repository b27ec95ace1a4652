//! How a run ends.

/// The ending of a journal.
#[derive(Clone, Copy)]
pub enum Ending {
    /// Every thread is done.
    Done,
    /// The journal is at its limit.
    Limit,
    /// The next action makes an object, and as many were made as one run may make.
    Full,
    /// Every thread sleeps, and none has a date.
    Stalled,
}
