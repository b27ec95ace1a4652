//! Tests of what a thread demands and of how an entry moves it on, with facts of a table.
#![tactic(auto)]

#[cfg(test)]
mod fitting;
#[cfg(test)]
mod nested;
#[cfg(test)]
mod rows;
#[cfg(test)]
mod scripts;
#[cfg(test)]
mod steps;
mod table;
#[cfg(test)]
mod ways;
#[cfg(test)]
mod words;
#[cfg(test)]
mod worlds;

pub use table::{ItemFacts, ReceiverFacts, Table};
