//! What a clock is.
ghost use Rattle.std.specs.Prelude.{◌≡◌, ◌≤◌, ℕ, List, Option, IfSome};
ghost use Rattle.std.specs.Option.{option_map};
ghost use Rattle.cf_outside.specs.Times.{reached, times_left};

/// A clock, which says at what time a wait ends. Times are whole numbers of ticks: this project's own unit, which
/// stands for no length of time.
pub trait Clock {
    /// The times, one for each wait to come, if it tells them.
    ghost times: { Self → Option (List ℕ) };

    /// Waits for the time `due`, and says which time was reached: `due` or a later one.
    fn reach(&mut self, due: u64) -> u64
        ensures not_early { due ≤ result }

        // Where it tells its times, the next one is reached, or `due` where that is later or no time is left.
        ensures reached { IfSome (times self.old) (λ ts. result ≡ reached due ts) }
        ensures left { times self.new ≡ option_map times_left (times self.old) };
}
