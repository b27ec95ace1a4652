//! Texts as lists of UTF-16 code units, after the CFString reference: a place or a length counts units, and
//! every text is valid, so no call leaves half a surrogate pair.
#![tactic(auto)]

mod decoding;
mod edits;
mod faults;
mod splits;
mod texts;

pub use faults::StrFault;
pub use std::alloc::AllocError as NoMemory;
pub use texts::Str;
