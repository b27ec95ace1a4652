//! Timers: the dates after calls, which are due, and which calls are refused.
use crate::items::{items, numbers, object};
use cf_ids::{ItemKind, ObjId};
use rl_timers::{NoMemory, Timers};
use std::alloc::Global;
use std::test::Fail;

/// Calls a timer if it is valid and due.
fn fire(timers: &mut Timers, number: u16, now: u64) -> bool {
    let timer = object(number);
    if !timers.is_valid(timer) {
        return false;
    }
    match timers.next_date(timer) {
        Some(date) if date <= now => {
            timers.fire(timer, now);
            true
        }
        _ => false,
    }
}

/// The date of a timer after each of two calls.
fn dates(
    alloc: Global,
    first: u64,
    interval: u64,
    calls: [u64; 2],
) -> Result<[Option<u64>; 2], NoMemory> {
    let mut timers = Timers::new(alloc);
    timers.reserve(1)?;
    timers.make(ObjId(7), first, interval);
    fire(&mut timers, 7, calls[0]);
    let date = timers.next_date(object(7));
    fire(&mut timers, 7, calls[1]);
    Ok([date, timers.next_date(object(7))])
}

// The first date and the interval, the times of two calls, and the date after each.
const DATE_CASES: [(u64, u64, [u64; 2], [Option<u64>; 2]); 8] = [
    (5, 10, [37, 45], [Some(45), Some(55)]),
    (5, 10, [5, 24], [Some(15), Some(25)]),
    (0, 1, [0, 9], [Some(1), Some(10)]),
    (5, 0, [5, 6], [None, None]),
    (u64::MAX, 1, [u64::MAX, u64::MAX], [None, None]),
    (
        u64::MAX - 10,
        10,
        [u64::MAX - 10, u64::MAX],
        [Some(u64::MAX), None],
    ),
    (u64::MAX - 10, 11, [u64::MAX - 10, u64::MAX], [None, None]),
    (0, u64::MAX, [0, u64::MAX], [Some(u64::MAX), None]),
];

#[test]
fn dates_after_calls(rt: HostRuntime) -> Result<(), Fail> {
    for (first, interval, calls, wanted) in DATE_CASES {
        assert_eq!(rt;
            dates(rt.alloc(), first, interval, calls)?,
            wanted,
            "from {first} each {interval}"
        );
    }
    Ok(())
}

// Five timers by number, first date and interval.
fn five(alloc: Global) -> Result<Timers, NoMemory> {
    let mut timers = Timers::new(alloc);
    timers.reserve(5)?;
    timers.make(ObjId(7), 5, 10);
    timers.make(ObjId(3), 5, 0);
    timers.make(ObjId(9), 2, 0);
    timers.make(ObjId(4), 30, 10);
    timers.make(ObjId(8), 1, 0);
    Ok(timers)
}

#[derive(Clone, Copy)]
enum TimerCall {
    Look(u16),
    Fire(u16, u64),
    Invalidate(u16),
}

/// Whether a call is done and its timer is valid then, and the timer's date.
fn call(timers: &mut Timers, call: &TimerCall) -> ([bool; 2], Option<u64>) {
    let (number, done) = match *call {
        TimerCall::Look(number) => (number, true),
        TimerCall::Fire(number, now) => (number, fire(timers, number, now)),
        TimerCall::Invalidate(number) => (number, timers.invalidate(object(number)).is_ok()),
    };
    let timer = object(number);
    ([done, timers.is_valid(timer)], timers.next_date(timer))
}

/// The least date of the items 9, 7, 4, 3 and 6, of which 6 is no timer, and which of them are due.
fn due(alloc: Global, timers: &Timers, now: u64) -> Result<(Option<u64>, [u32; 5]), NoMemory> {
    let items = items(ItemKind::Timer, [9, 7, 4, 3, 6]);
    let mut found = Vec::new(alloc);
    found.reserve(5)?;
    timers.collect(&items, now, &mut found);
    Ok((timers.least(&items), numbers(&found)))
}

type Called = ([bool; 2], Option<u64>);

// A call and what it answers, a time, and the least date and what is due at that time.
const TIMER_CASES: [(&str, TimerCall, Called, u64, (Option<u64>, [u32; 5])); 14] = [
    (
        "none is due but one that is no item",
        TimerCall::Look(8),
        ([true, true], Some(1)),
        1,
        (Some(2), [0, 0, 0, 0, 0]),
    ),
    (
        "one at its date",
        TimerCall::Look(9),
        ([true, true], Some(2)),
        2,
        (Some(2), [9, 0, 0, 0, 0]),
    ),
    (
        "of equal dates the lower number",
        TimerCall::Look(7),
        ([true, true], Some(5)),
        29,
        (Some(2), [9, 3, 7, 0, 0]),
    ),
    (
        "all of them",
        TimerCall::Look(4),
        ([true, true], Some(30)),
        30,
        (Some(2), [9, 3, 7, 4, 0]),
    ),
    (
        "a number of no timer",
        TimerCall::Look(6),
        ([true, false], None),
        4,
        (Some(2), [9, 0, 0, 0, 0]),
    ),
    (
        "called once",
        TimerCall::Fire(9, 4),
        ([true, true], None),
        29,
        (Some(5), [3, 7, 0, 0, 0]),
    ),
    (
        "called late",
        TimerCall::Fire(7, 37),
        ([true, true], Some(45)),
        44,
        (Some(5), [3, 4, 0, 0, 0]),
    ),
    (
        "due again, and last by date",
        TimerCall::Look(7),
        ([true, true], Some(45)),
        45,
        (Some(5), [3, 4, 7, 0, 0]),
    ),
    (
        "the first of two called once",
        TimerCall::Fire(3, 38),
        ([true, true], None),
        45,
        (Some(30), [4, 7, 0, 0, 0]),
    ),
    (
        "called at its date",
        TimerCall::Fire(4, 30),
        ([true, true], Some(40)),
        40,
        (Some(40), [4, 0, 0, 0, 0]),
    ),
    (
        "an invalidated one keeps its date",
        TimerCall::Invalidate(4),
        ([true, false], Some(40)),
        45,
        (Some(45), [7, 0, 0, 0, 0]),
    ),
    (
        "invalidated once",
        TimerCall::Invalidate(4),
        ([false, false], Some(40)),
        45,
        (Some(45), [7, 0, 0, 0, 0]),
    ),
    (
        "one without a date invalidated",
        TimerCall::Invalidate(9),
        ([true, false], None),
        44,
        (Some(45), [0, 0, 0, 0, 0]),
    ),
    (
        "the last one invalidated",
        TimerCall::Invalidate(7),
        ([true, false], Some(45)),
        u64::MAX,
        (None, [0, 0, 0, 0, 0]),
    ),
];

#[test]
fn timers(rt: HostRuntime) -> Result<(), Fail> {
    let alloc = rt.alloc();
    let mut timers = five(alloc)?;
    timers.reserve(0)?;
    for (case, done, answer, now, wanted) in &TIMER_CASES {
        let got = call(&mut timers, done);
        assert_eq!(rt;
            (got, due(alloc, &timers, *now)?),
            (*answer, *wanted),
            "{case}"
        );
    }
    Ok(())
}
