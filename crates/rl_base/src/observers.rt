//! What is kept of an observer.
use cf_ids::ObjId;

/// An observer of run loops (the Run Loops guide).
#[derive(Clone, Copy)]
pub struct ObserverState {
    /// Its number as an object.
    pub number: ObjId,
    /// The activities that it is told of, one bit each: Entry 1, BeforeTimers 2, BeforeSources 4, BeforeWaiting 32,
    /// AfterWaiting 64, Exit 128. A script's masks are from 1 to 231; other bits are never asked for.
    pub mask: u8,
    /// It is called again and again, or else once.
    pub repeats: bool,
    /// Observers of a lower order are called first.
    pub order: i64,
    /// It is not invalidated.
    pub valid: bool,
}
