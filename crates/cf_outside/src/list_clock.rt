//! A clock whose times are given.
ghost use Rattle.std.specs.Prelude.{◌≡◌, Some};
ghost use Rattle.cf_outside.specs.Times.{reached, times_left};

use crate::clocks::Clock;
use std::marker::Model;

/// A clock that may be late: each wait takes the next of the given times, and ends then, or at the time that is due
/// where that is later. Contracts see it as the list of the times that are left; once none is, each time that is due
/// is reached.
#[derive(Drop)]
pub struct ListClock {
    times: Vec<u64>,
    // How many of them are taken.
    taken: usize,
}

impl Model for ListClock {
    ghost use Rattle.std.specs.Prelude.{List, ℕ, drop};

    ghost Value = { List ℕ };

    ghost view = { λ c. drop c.taken c.times.items };
}

impl ListClock {
    /// A clock with these times, the next one first. It takes no memory.
    pub fn new(times: Vec<u64>) -> ListClock
        ensures { result ≡ times.items }
    {
        ListClock { times, taken: 0 }
    }
}

impl Clock for ListClock {
    ghost times = { λ c. Some c };

    fn reach(&mut self, due: u64) -> u64 {
        match self.times.get(self.taken) {
            Some(time) => {
                self.taken += 1;
                due.max(*time)
            }
            None => due,
        }
    }
}
