//! The table of timers, by rising number.
ghost use Rattle.std.specs.Prelude.{◌≡◌, ◌<◌, ◌≤◌, ◌+◌, length, insert, option_copied, vec_len, vec_capacity};
ghost use Rattle.std.specs.List.{AllWithin};
ghost use Rattle.rl_timers.specs.Timings.{date_of, is_valid, valid_date};
ghost use Rattle.rl_timers.specs.Rows.{IsRising, timers_of, row_at};

use cf_ids::ObjId;
use cf_links::Node;

/// What the table has of a timer.
#[derive(Clone, Copy)]
pub struct Row {
    pub number: ObjId,
    pub first: u64,
    /// 0 if the timer does not repeat.
    pub interval: u64,
    /// The date that the timer has now.
    pub date: Option<u64>,
    pub is_valid: bool,
    /// Its node in the queue, if it is valid and has a date.
    pub node: Node,
}

/// The place of this number: how many rows have a lower one.
pub fn place_of(rows: &[Row], t: ObjId) -> usize
    requires { IsRising rows.now }
    ensures within { result ≤ length rows.now }
    ensures lower { AllWithin (λ r. r.number < t) rows.now 0 result }
    ensures higher { AllWithin (λ r. t ≤ r.number) rows.now result (length rows.now) }
{
    rows.partition_point(|row| row.number.0 < t.0)
}

/// The row of this number, if there is one.
pub fn row_of(rows: &[Row], t: ObjId) -> Option<&Row>
    requires { IsRising rows.now }
    ensures { option_copied result ≡ row_at rows.now t }
{
    let row = rows.get(place_of(rows, t))?;
    if row.number == t { Some(row) } else { None }
}

/// Puts a row before the one at `place`.
pub fn insert(rows: &mut Vec<Row>, place: usize, row: Row)
    requires within { place ≤ vec_len rows.old }
    requires room { vec_len rows.old < vec_capacity rows.old }
    ensures items { rows.new.items ≡ insert rows.old.items place row }
    ensures len { vec_len rows.new ≡ vec_len rows.old + 1 }
    ensures capacity { vec_capacity rows.new ≡ vec_capacity rows.old }
{
    rows.push_reserved(row);
    rows[place..].rotate_right(1);
}

/// The date that the timer of this number has, whether it is valid or not.
#[tactic(auto, using(crate::proofs::Tables::timer_at_from_row))]
pub fn date_of(rows: &[Row], t: ObjId) -> Option<u64>
    requires { IsRising rows.now }
    ensures { result ≡ date_of (timers_of rows.now) t }
{
    row_of(rows, t)?.date
}

/// The date that the timer of this number has, if it is valid.
#[tactic(auto, using(crate::proofs::Tables::timer_at_from_row))]
pub fn valid_date(rows: &[Row], t: ObjId) -> Option<u64>
    requires { IsRising rows.now }
    ensures { result ≡ valid_date (timers_of rows.now) t }
{
    let row = row_of(rows, t)?;
    if row.is_valid { row.date } else { None }
}

/// Whether the number is one of a valid timer.
#[tactic(auto, using(crate::proofs::Tables::timer_at_from_row))]
pub fn is_valid(rows: &[Row], t: ObjId) -> bool
    requires { IsRising rows.now }
    ensures { result ≡ is_valid (timers_of rows.now) t }
{
    match row_of(rows, t) {
        Some(row) => row.is_valid,
        None => false,
    }
}
