//! The phases of a turn, and the facts that decide between them.

/// A phase of a turn (the Run Loops guide; CFRunLoop.c in outline).
#[derive(Clone, Copy, Debug, PartialEq)]
pub enum Phase {
    /// The observers of an activity are told: Entry 1, BeforeTimers 2, BeforeSources 4, BeforeWaiting 32,
    /// AfterWaiting 64 or Exit 128. Other numbers are no activities.
    Note(u8),
    /// The signalled sources are called.
    Sources,
    /// The loop sleeps.
    Sleep,
    /// The timers that are due are called.
    Timers,
    /// It is tested whether the run has a result.
    Test,
    /// The run ends.
    Ran,
}

/// What the phases of a turn depend on.
#[derive(Clone, Copy)]
pub struct TurnFacts {
    /// A source was called since the turn began.
    pub handled: bool,
    /// The run was asked to end when a source was called.
    pub once: bool,
    /// The run has a deadline, and the time is at least that.
    pub past: bool,
    /// The run was told to stop.
    pub stopped: bool,
    /// The run's mode has neither a source nor a timer.
    pub empty: bool,
}
