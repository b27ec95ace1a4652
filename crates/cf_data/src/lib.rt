//! Growing lists of bytes, after the CFMutableData reference: room is made by `reserve`, and edits
//! within that room take no memory.
#![tactic(auto)]

mod buffers;
mod edits;

pub use buffers::{Bytes, Range};
pub use std::alloc::AllocError as NoMemory;
