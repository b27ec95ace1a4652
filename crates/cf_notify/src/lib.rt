//! A notification centre, after the reference of CFNotificationCenter: who is told of which notices. Room is made by
//! `reserve`, and the other calls take no memory.
#![tactic(auto)]

mod centre;
mod lists;

pub use centre::Centre;
pub use rl_base::{RegId, Registration};
pub use std::alloc::AllocError as NoMemory;
