//! Tests of collections: each public call on its happy path, and each refusal.
#![tactic(auto)]

#[cfg(test)]
mod coins;
#[cfg(test)]
mod collections;
#[cfg(test)]
mod members;
#[cfg(test)]
mod tables;
