//! Tests of the run loops of a run: worked values, and each public call on its happy path.
#![tactic(auto)]

#[cfg(test)]
mod edges;
#[cfg(test)]
mod items;
#[cfg(test)]
mod looks;
#[cfg(test)]
mod steps;
