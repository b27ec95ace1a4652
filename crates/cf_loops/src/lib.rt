//! The run loops of a run, one of each thread, as the state of the definitions has them: what a place of a loop holds
//! is what the state has references of that place to. Room is made before an entry, and the entry then takes no memory.
#![tactic(auto)]

mod changes;
mod counts;
mod edges;
mod laws;
mod looks;
mod loops;

pub use laws::{demands_leave_loops, items_stay, loops_are_kept, loops_are_told};
pub use loops::Loops;
pub use std::alloc::AllocError as NoMemory;
