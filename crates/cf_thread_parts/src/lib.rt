//! Tests of what threads stand on: counts that are split, jobs in threads of their own, and gates.
#![tactic(auto)]

#[cfg(test)]
mod counts;
#[cfg(test)]
mod gates;
#[cfg(test)]
mod jobs;
#[cfg(test)]
mod words;
