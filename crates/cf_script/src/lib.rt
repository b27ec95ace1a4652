//! The reader: bytes to a script, or the line and the reason of a refusal.
#![tactic(auto)]

mod block;
mod blocks;
mod classes;
mod fault;
mod forms;
mod hints;
mod lines;
mod names;
mod near;
mod numbers;
mod openings;
mod operands;
mod reader;
mod shapes;
mod statements;
mod table;
mod threads;
mod words;

pub use cf_syntax::{Block, ClassLine, Given, Handler, Reason, Refusal, Script, Statement};
pub use fault::ScriptFault;
pub use reader::read_script;
