//! What a journal says of items, timers, notices and runs of loops, as sentences over its entries, and the laws that
//! the state after it says the same.
#![tactic(auto)]

mod laws;

pub use laws::{
    callouts_fit, dates_are_told, lives_are_told, receivers_are_told,
    serial_journals_are_determined, signals_are_told, timed_journals_are_determined, turns_fit,
    validity_is_told,
};
