//! Dates.
ghost use Rattle.std.specs.Prelude.{◌≡◌};
ghost use Rattle.rl_base.specs.Dates.{has_come, earlier};

/// Whether a date is there and has come.
pub fn has_come(date: &Option<u64>, now: u64) -> bool
    ensures { result ≡ has_come date.now now }
{
    match date {
        Some(date) => *date <= now,
        None => false,
    }
}

/// The earlier one of two dates.
pub fn earlier(a: Option<u64>, b: Option<u64>) -> Option<u64>
    ensures { result ≡ earlier a b }
{
    match (a, b) {
        (None, b) => b,
        (Some(a), None) => Some(a),
        (Some(a), Some(b)) => { if a <= b { Some(a) } else { Some(b) } }
    }
}
