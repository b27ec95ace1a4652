//! Tests of the crates below the top call: worked values, and each public call on its happy path.
#![tactic(auto)]

#[cfg(test)]
mod check;
#[cfg(test)]
mod ids;
#[cfg(test)]
mod io;
#[cfg(test)]
mod leaves;
#[cfg(test)]
mod linked;
#[cfg(test)]
mod paths;
#[cfg(test)]
mod strings;
#[cfg(test)]
mod types;
