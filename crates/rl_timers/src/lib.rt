//! The timers of run loops, after the Run Loops guide: which of them are due, and which date each has next. Room is
//! made by `reserve`, and the other calls take no memory.
#![tactic(auto)]

mod among;
mod dates;
mod queue;
mod rows;
mod timers;

pub use std::alloc::AllocError as NoMemory;
pub use timers::{Invalid, Timers};
