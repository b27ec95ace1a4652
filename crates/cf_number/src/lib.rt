//! Whole numbers with a kind, after the CFNumber reference: a value in one of four signed widths,
//! read back in any of them, with a refusal if the reading would lose the value.
#![tactic(auto)]

mod kinds;
mod numbers;

pub use kinds::NumKind;
pub use numbers::{Lossy, Num, OutOfKind};
