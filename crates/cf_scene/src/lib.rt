//! The scene of a run, beside where its threads stand: what statements and phases over run loops do to the bodies, the
//! loops and the flags of the threads.
#![tactic(auto)]

mod dealing;
mod dealt;
mod flags;
mod gains;
mod needs;
mod places;
mod sources;
mod threads;

pub use dealing::{Acting, deal};
pub use dealt::Dealt;
pub use flags::{Flags, Sleep};
pub use gains::gain_common;
pub use needs::{acts_on_loops, most_moved, reserve_places, thread_of};
pub use places::{add, drop_from, invalidate, make_common, spend};
pub use sources::{fire, signal};
pub use threads::{earlier, run, sleep, stop, wake};
