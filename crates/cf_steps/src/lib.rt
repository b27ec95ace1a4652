//! The step of what a thread demands, over plain lists.
#![tactic(auto)]

mod binding;
mod collect;
mod demand;
mod done;
mod statement;
mod steps;

pub use demand::step_of;
pub use done::Done;
