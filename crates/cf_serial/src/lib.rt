//! The serial run of a script: a pointer goes round its threads.
#![tactic(auto)]

mod numbers;
mod run;
mod serial;

pub use serial::{Ran, serial_run};
