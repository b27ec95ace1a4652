//! The owner check: which scripts are owned, and the first fault of one that is not.
#![tactic(auto)]

mod checked;
mod handlers;
mod statements;
mod threads;
mod uses;

pub use cf_syntax::{Reason, Refusal, Script};
pub use checked::{Checked, OwnFault, check_owners};
