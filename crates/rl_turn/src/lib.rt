//! The turn of a run loop: which phase comes after which, and what the test at a turn's end gives.
#![tactic(auto)]

mod phases;
mod table;

pub use phases::{Phase, TurnFacts};
pub use table::{has_row, next_phase, result};
