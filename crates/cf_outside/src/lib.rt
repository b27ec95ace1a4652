//! What a run takes from outside, beside its files: the clock, threads, and a gate for their workers.
#![tactic(auto)]

mod clocks;
mod gates;
mod jobs;
mod list_clock;
mod meet_gate;
mod refusing_spawner;
mod spawners;
mod starts;
mod step_clock;
mod thread_spawner;

pub use clocks::Clock;
pub use gates::{Gate, OpenGate};
pub use jobs::{Job, Joined, Lead, Unstarted};
pub use list_clock::ListClock;
pub use meet_gate::MeetGate;
pub use refusing_spawner::RefusingSpawner;
pub use spawners::Spawner;
pub use step_clock::StepClock;
pub use thread_spawner::ThreadSpawner;
