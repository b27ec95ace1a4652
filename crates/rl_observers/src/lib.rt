//! Observers of run loops, after the Run Loops guide: each is told of the activities in its mask until it is
//! invalidated.
#![tactic(auto)]

mod observers;

pub use observers::{Invalid, Observers};
pub use std::alloc::AllocError as NoMemory;
