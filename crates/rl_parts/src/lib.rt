//! Tests of the parts of run loops: worked values, and each public call on its happy path.
#![tactic(auto)]

#[cfg(test)]
mod clocks;
#[cfg(test)]
mod items;
#[cfg(test)]
mod modes;
#[cfg(test)]
mod notices;
#[cfg(test)]
mod observers;
#[cfg(test)]
mod sources;
#[cfg(test)]
mod timers;
#[cfg(test)]
mod turns;
