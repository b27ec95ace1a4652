//! The modes of one run loop, after the Run Loops guide: which items each mode holds, which modes are common, and
//! which items each of these gets. Room is made by `reserve`, and changes within that room take no memory.
#![tactic(auto)]

mod holdings;
mod modes;
mod searches;

pub use modes::{Absent, Modes, Present};
pub use rl_base::Place;
pub use std::alloc::AllocError as NoMemory;
