//! The clock of the program.
ghost use Rattle.std.specs.Prelude.{Some, []};

use crate::clocks::Clock;

/// A clock that never is late: each time that is due is reached. Its list of times is always empty.
#[derive(Clone, Copy)]
pub struct StepClock;

impl Clock for StepClock {
    ghost times = { λ _. Some [] };

    fn reach(&mut self, due: u64) -> u64 {
        due
    }
}
