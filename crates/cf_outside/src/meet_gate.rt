//! A gate at which two threads meet, for tests.
use crate::gates::Gate;
use cf_ids::ThreadId;
use std::hint::spin_loop;
use std::sync::atomic::{AtomicBool, Ordering};
use std::thread::yield_now;

// How many turns a thread waits for the other one.
const TURNS: u32 = 100_000_000;

// How many turns pass between two in which another thread may take the processor.
const TURNS_AT_ONCE: u32 = 64;

/// A gate that holds the first pass of thread 1 until the first pass of thread 2, and the other way round, each for at
/// most 100,000,000 turns. Other threads and later passes are not held up.
#[derive(Drop)]
pub struct MeetGate {
    first: AtomicBool,
    second: AtomicBool,
    late: AtomicBool,
}

impl MeetGate {
    /// A gate to which nobody came.
    pub fn new() -> MeetGate {
        MeetGate {
            first: AtomicBool::new(false),
            second: AtomicBool::new(false),
            late: AtomicBool::new(false),
        }
    }

    /// Whether both threads came.
    pub fn both_came(&self) -> bool {
        self.first.load(Ordering::SeqCst) && self.second.load(Ordering::SeqCst)
    }

    /// Whether the turns of a thread ran out before the other one came.
    pub fn ran_out(&self) -> bool {
        self.late.load(Ordering::SeqCst)
    }

    fn meet(&self, own: &AtomicBool, other: &AtomicBool) {
        own.store(true, Ordering::SeqCst);
        if !has_come(other) {
            self.late.store(true, Ordering::SeqCst);
        }
    }
}

impl Gate for MeetGate {
    fn pass(&self, t: ThreadId, n: u64) {
        match (t.0, n) {
            (1, 0) => self.meet(&self.first, &self.second),
            (2, 0) => self.meet(&self.second, &self.first),
            _ => {}
        }
    }
}

// Waits until a thread has come, and tells whether it has before the turns ran out.
fn has_come(other: &AtomicBool) -> bool {
    for turn in 0..TURNS {
        if other.load(Ordering::SeqCst) {
            return true;
        }
        if turn % TURNS_AT_ONCE == 0 {
            yield_now();
        } else {
            spin_loop();
        }
    }
    false
}
