//! Observers: which are told of an activity, and which calls are refused.
use crate::items::{items, numbers, object};
use cf_ids::{ItemKind, ObjId};
use rl_observers::{NoMemory, Observers};
use std::alloc::Global;
use std::test::Fail;

// Five observers: 7 and 6 at both ends of a run, 3 at every activity and after them, 5 before a sleep and before the
// others, 8 on both sides of a sleep, once.
fn five(alloc: Global) -> Result<Observers, NoMemory> {
    let mut observers = Observers::new(alloc);
    observers.reserve(5)?;
    observers.make(ObjId(7), 129, true, 0);
    observers.make(ObjId(3), 231, true, 1);
    observers.make(ObjId(5), 32, true, -1);
    observers.make(ObjId(8), 96, false, 0);
    observers.make(ObjId(6), 129, true, 0);
    Ok(observers)
}

/// Which of the observers 7, 3, 5, 8 and 6 are told of an activity.
fn told(alloc: Global, observers: &Observers, activity: u8) -> Result<[u32; 5], NoMemory> {
    let mut found = Vec::new(alloc);
    found.reserve(5)?;
    observers.matching(
        &items(ItemKind::Observer, [7, 3, 5, 8, 6]),
        activity,
        &mut found,
    );
    Ok(numbers(&found))
}

#[derive(Clone, Copy)]
enum ObserverCall {
    Tell,
    Invalidate(u16),
}

/// Whether a call is done, and whether its observer is valid then.
fn call(observers: &mut Observers, call: &ObserverCall) -> [bool; 2] {
    match *call {
        ObserverCall::Tell => [true, true],
        ObserverCall::Invalidate(number) => {
            let done = observers.invalidate(object(number)).is_ok();
            [done, observers.is_valid(object(number))]
        }
    }
}

// A call, what it answers, an activity, and which observers are told of it then.
const OBSERVER_CASES: [(&str, ObserverCall, [bool; 2], u8, [u32; 5]); 12] = [
    (
        "entry",
        ObserverCall::Tell,
        [true, true],
        1,
        [6, 7, 3, 0, 0],
    ),
    (
        "before timers",
        ObserverCall::Tell,
        [true, true],
        2,
        [3, 0, 0, 0, 0],
    ),
    (
        "before sources",
        ObserverCall::Tell,
        [true, true],
        4,
        [3, 0, 0, 0, 0],
    ),
    (
        "before a sleep",
        ObserverCall::Tell,
        [true, true],
        32,
        [5, 8, 3, 0, 0],
    ),
    (
        "after a sleep",
        ObserverCall::Tell,
        [true, true],
        64,
        [8, 3, 0, 0, 0],
    ),
    (
        "exit",
        ObserverCall::Tell,
        [true, true],
        128,
        [6, 7, 3, 0, 0],
    ),
    (
        "one invalidated",
        ObserverCall::Invalidate(7),
        [true, false],
        1,
        [6, 3, 0, 0, 0],
    ),
    (
        "invalidated once",
        ObserverCall::Invalidate(7),
        [false, false],
        128,
        [6, 3, 0, 0, 0],
    ),
    (
        "a number of no observer",
        ObserverCall::Invalidate(4),
        [false, false],
        32,
        [5, 8, 3, 0, 0],
    ),
    (
        "one that is called once",
        ObserverCall::Invalidate(8),
        [true, false],
        64,
        [3, 0, 0, 0, 0],
    ),
    (
        "the last one of a mask",
        ObserverCall::Invalidate(3),
        [true, false],
        64,
        [0, 0, 0, 0, 0],
    ),
    (
        "the others stay",
        ObserverCall::Tell,
        [true, true],
        32,
        [5, 0, 0, 0, 0],
    ),
];

#[test]
fn observers(rt: HostRuntime) -> Result<(), Fail> {
    let alloc = rt.alloc();
    let mut observers = five(alloc)?;
    observers.reserve(0)?;
    let repeat = [7, 3, 5, 8, 6, 4].map(|number| observers.repeats(object(number)));
    assert_eq!(rt;
        repeat,
        [true, true, true, false, true, false],
        "who is called again"
    );
    for (case, done, answer, activity, wanted) in &OBSERVER_CASES {
        let got = call(&mut observers, done);
        let found = told(alloc, &observers, *activity)?;
        assert_eq!(rt; (got, found), (*answer, *wanted), "{case}");
    }
    Ok(())
}
