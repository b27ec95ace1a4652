//! Dates: the one that a timer has after a call, whether one has come, and which is earlier.
ghost use Rattle.std.specs.Prelude.{◌≡◌};
ghost use Rattle.rl_base.specs.Dates.{date_after, has_come, earlier};

/// The date of a timer after a call at the time `now`, or `None` if it does not repeat or the next one does not fit.
/// Dates that were missed are passed over by one division.
#[tactic(auto, using(crate::proofs::NextDates::date_by_remainder))]
pub fn date_after(first: u64, interval: u64, now: u64) -> Option<u64>
    ensures { result ≡ date_after first interval now }
{
    if interval == 0 {
        return None;
    }
    if now < first {
        return Some(first);
    }
    let last = now - (now - first) % interval;
    last.checked_add(interval)
}

/// Whether there is a date and it is at most `now`.
pub fn has_come(date: Option<u64>, now: u64) -> bool
    ensures { result ≡ has_come date now }
{
    match date {
        Some(date) => date <= now,
        None => false,
    }
}

/// The earlier one of two dates, each of which there may be or not.
pub fn earlier(a: Option<u64>, b: Option<u64>) -> Option<u64>
    ensures { result ≡ earlier a b }
{
    match (a, b) {
        (Some(x), Some(y)) => Some(if x <= y { x } else { y }),
        (Some(x), None) => Some(x),
        (None, other) => other,
    }
}
