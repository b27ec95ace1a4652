//! Sources of run loops, after the Run Loops guide: each is valid until it is invalidated, and signalled until its
//! callout begins.
#![tactic(auto)]

mod sources;

pub use sources::{Invalid, Sources};
pub use std::alloc::AllocError as NoMemory;
