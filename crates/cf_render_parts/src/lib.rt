//! Tests of what is read of a script, and of what is written of a journal.
#![tactic(auto)]

#[cfg(test)]
mod entries;
#[cfg(test)]
mod forms;
#[cfg(test)]
mod lines;
#[cfg(test)]
mod loops;
#[cfg(test)]
mod owned;
#[cfg(test)]
mod parts;
#[cfg(test)]
mod reading;
#[cfg(test)]
mod scripts;
