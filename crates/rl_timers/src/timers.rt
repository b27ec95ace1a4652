//! Timers: which are due, and which date each has next.
ghost use Rattle.std.specs.Prelude.{◌≡◌, ◌-◌, ◌≤◌, ◌↔◌, ◌++◌, [], length, None, IsTrue, IsOk, OnOk, OnErr, IsSomeAnd, vec_len, vec_capacity};
ghost use Rattle.rl_timers.specs.Timings.{timer_at, with_timer, made_timer, date_of, is_valid, numbers_of, least_among, due_among, changed, fired, invalidated};
ghost use Rattle.rl_timers.specs.Rows.{IsRising, timers_of};

use crate::NoMemory;
use crate::among::{least_among, push_due, sort_by_date};
use crate::dates::{date_after, has_come};
use crate::queue::Queue;
use crate::rows::{Row, date_of, insert, is_valid, place_of};
use cf_ids::{Item, ObjId};
use std::alloc::Global;
use std::marker::Model;

/// The timer is not valid.
#[derive(Clone, Copy, Debug)]
pub struct Invalid;

/// The timers of all run loops, by number.
///
/// Those that are valid and have a date wait in a queue in order of date.
#[derive(Drop)]
pub struct Timers {
    rows: Vec<Row>,
    queue: Queue,
    /// For how many more timers there is room, at least.
    room: usize,
}

impl Model for Timers {
    ghost use Rattle.std.specs.Prelude.{◌-◌, vec_len, vec_capacity};
    ghost use Rattle.rl_timers.specs.Timings.{Timing};

    ghost Value = { Timing };

    ghost use Rattle.rl_timers.specs.Rows.{timers_of, IsTable};

    ghost view = { λ s. record { timers = timers_of s.rows.items; room = s.room } };

    ghost invariant = { λ s. IsTable s.rows.items (vec_capacity s.rows - vec_len s.rows) s.queue s.room };
}

impl Timers {
    /// No timers and no room; takes no memory.
    pub fn new(alloc: Global) -> Timers
        ensures { result ≡ record { timers = []; room = 0 } }
    {
        Timers {
            rows: Vec::new(alloc),
            queue: Queue::new(alloc),
            room: 0,
        }
    }

    /// Makes room for at least `more` further timers. `NoMemory` comes only if the room was less, and changes nothing.
    pub fn reserve(&mut self, more: usize) -> Result<(), NoMemory>
        ensures timers { self.new.timers ≡ self.old.timers }
        ensures room { OnOk result (more ≤ self.new.room) }
        ensures kept { self.old.room ≤ self.new.room }

        // It can be refused only if the room was missing.
        ensures enough { more ≤ self.old.room → IsOk result }
        ensures err { OnErr result (self.new ≡ self.old) }
    {
        if more <= self.room {
            return Ok(());
        }
        self.rows.reserve(more)?;
        self.queue.reserve(more)?;
        self.room = more;
        Ok(())
    }

    /// Makes a timer, which is valid. Its date is `first`, a number of ticks of the clock, and it repeats after each
    /// `interval` ticks, or does not if that is 0. Its number is new.
    pub fn make(&mut self, t: ObjId, first: u64, interval: u64)
        requires room { 1 ≤ self.old.room }
        requires is_new { timer_at self.old.timers t ≡ None }
        ensures made { self.new ≡ record {
          timers = with_timer (made_timer t first interval) self.old.timers;
          room = self.old.room - 1;
        } }
    {
        let place = place_of(self.rows.as_slice(), t);
        let node = self.queue.put(first, t);
        let row = Row {
            number: t,
            first,
            interval,
            date: Some(first),
            is_valid: true,
            node,
        };
        insert(&mut self.rows, place, row);
        self.room -= 1;
    }

    /// The date that a timer has, valid or not; `None` if it has none or was not made.
    pub fn next_date(&self, t: ObjId) -> Option<u64>
        ensures { result ≡ date_of self.now.timers t }
    {
        date_of(self.rows.as_slice(), t)
    }

    /// The least date of the valid timers among the items, or `None` if none of them has one.
    pub fn least(&self, items: &[Item]) -> Option<u64>
        ensures { result ≡ least_among self.now.timers (numbers_of items.now) }
    {
        let earliest = self.queue.first_date()?;
        least_among(self.rows.as_slice(), items, earliest)
    }

    /// Whether this is a valid timer.
    pub fn is_valid(&self, t: ObjId) -> bool
        ensures { result ≡ is_valid self.now.timers t }
    {
        is_valid(self.rows.as_slice(), t)
    }

    /// Appends to `out` the valid timers among the items whose date is at most `now`, by date and then by number. One
    /// that is twice among the items comes twice.
    pub fn collect(&self, items: &[Item], now: u64, out: &mut Vec<ObjId>)
        requires room { length items.now ≤ vec_capacity out.old - vec_len out.old }
        ensures collected { out.new.items
            ≡ out.old.items ++ due_among self.now.timers now (numbers_of items.now) }
        ensures capacity { vec_capacity out.new ≡ vec_capacity out.old }
    {
        if has_come(self.queue.first_date(), now) {
            let start = out.len();
            push_due(self.rows.as_slice(), items, now, out);
            sort_by_date(self.rows.as_slice(), &mut out[start..]);
        }
    }

    /// Calls a timer at the time `now`: it has its next date, and dates that are past by then are missed.
    pub fn fire(&mut self, t: ObjId, now: u64)
        requires valid { IsTrue (is_valid self.old.timers t) }
        requires due { IsSomeAnd (date_of self.old.timers t) (λ date. date ≤ now) }
        ensures fired { self.new ≡ record self.old { timers = changed t (fired now) self.old.timers } }
    {
        let place = place_of(self.rows.as_slice(), t);
        let row = &mut self.rows[place];
        row.date = date_after(row.first, row.interval, now);
        self.queue.take(row.node);
        if let Some(date) = row.date {
            row.node = self.queue.put(date, t);
        }
    }

    /// Makes a timer invalid for good. It keeps its date. `Invalid` exactly if it is no valid timer.
    pub fn invalidate(&mut self, t: ObjId) -> Result<(), Invalid>
        ensures valid { IsOk result ↔ IsTrue (is_valid self.old.timers t) }
        ensures ok { OnOk result (self.new
            ≡ record self.old { timers = changed t invalidated self.old.timers }) }
        ensures err { OnErr result (self.new ≡ self.old) }
    {
        if !self.is_valid(t) {
            return Err(Invalid);
        }
        let place = place_of(self.rows.as_slice(), t);
        let row = &mut self.rows[place];
        row.is_valid = false;
        if row.date.is_some() {
            self.queue.take(row.node);
        }
        Ok(())
    }
}
