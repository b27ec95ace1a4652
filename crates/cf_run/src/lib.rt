//! The program's top call: reads a script, runs it in the serial order, and writes the lines of its
//! journal.
#![tactic(auto)]

mod call;
mod command;
mod lines;
mod output;
mod report;
mod settle;

pub use call::cfrun_serial;
pub use cf_model::{Action, Ending, Entry};
pub use cf_serial::{Ran, serial_run};
pub use report::Report;
