//! What comes into the loops of two threads and what leaves them, step by step.
use crate::items::{
    COMMON, FIRST, NONE, OBSERVER, SECOND, SOURCE, THREADS, TIMER, add, leave, make_common, places,
    take,
};
use cf_ids::{Item, ModeId, ObjId, ThreadId};
use cf_loops::{Loops, NoMemory};
use std::alloc::Global;
use std::test::Fail;

#[derive(Clone, Copy)]
enum Step {
    Add(ThreadId, u16, Item),
    Drop(ThreadId, u16, ObjId),
    Common(ThreadId, ModeId),
    Leave(ObjId),
}

/// Does a step, and tells how many references come or leave.
fn run(alloc: Global, loops: &mut Loops, step: &Step) -> Result<usize, NoMemory> {
    match step {
        Step::Add(t, place, item) => add(loops, *t, *place, item),
        Step::Drop(t, place, item) => Ok(take(loops, *t, *place, *item)),
        Step::Common(t, mode) => make_common(alloc, loops, *t, *mode),
        Step::Leave(item) => Ok(leave(loops, *item)),
    }
}

// A step; how many references come or leave; which places of the first thread's loop and of the second one's hold the
// source then; and whether the source is in another loop than the first thread's, and mode 5 of that is empty.
const ROWS: [(&str, Step, usize, [u16; 5], [u16; 5], [bool; 2]); 15] = [
    (
        "a common mode before any common item",
        Step::Common(FIRST, ModeId(5)),
        0,
        [NONE; 5],
        [NONE; 5],
        [false, true],
    ),
    (
        "a common item is in each common mode",
        Step::Add(FIRST, COMMON, SOURCE),
        3,
        [COMMON, 0, 5, NONE, NONE],
        [NONE; 5],
        [false, false],
    ),
    (
        "in a mode that is not common",
        Step::Add(FIRST, 7, SOURCE),
        1,
        [COMMON, 0, 5, 7, NONE],
        [NONE; 5],
        [false, false],
    ),
    (
        "in the loop of another thread too",
        Step::Add(SECOND, 5, SOURCE),
        1,
        [COMMON, 0, 5, 7, NONE],
        [5, NONE, NONE, NONE, NONE],
        [true, false],
    ),
    (
        "a mode that holds the common item already",
        Step::Common(FIRST, ModeId(7)),
        0,
        [COMMON, 0, 5, 7, NONE],
        [5, NONE, NONE, NONE, NONE],
        [true, false],
    ),
    (
        "a mode that gains the common item",
        Step::Common(FIRST, ModeId(3)),
        1,
        [COMMON, 0, 3, 5, 7],
        [5, NONE, NONE, NONE, NONE],
        [true, false],
    ),
    (
        "dropped from a common mode alone",
        Step::Drop(FIRST, 5, ObjId(8)),
        1,
        [COMMON, 0, 3, 7, NONE],
        [5, NONE, NONE, NONE, NONE],
        [true, true],
    ),
    (
        "a second common item",
        Step::Add(FIRST, COMMON, TIMER),
        5,
        [COMMON, 0, 3, 7, NONE],
        [5, NONE, NONE, NONE, NONE],
        [true, false],
    ),
    (
        "dropped from the common items and each common mode",
        Step::Drop(FIRST, COMMON, ObjId(8)),
        4,
        [NONE; 5],
        [5, NONE, NONE, NONE, NONE],
        [true, false],
    ),
    (
        "dropped where it is not",
        Step::Drop(FIRST, COMMON, ObjId(8)),
        0,
        [NONE; 5],
        [5, NONE, NONE, NONE, NONE],
        [true, false],
    ),
    (
        "added again to one mode",
        Step::Add(FIRST, 9, SOURCE),
        1,
        [9, NONE, NONE, NONE, NONE],
        [5, NONE, NONE, NONE, NONE],
        [true, false],
    ),
    (
        "a mode that is not common keeps what it has",
        Step::Add(SECOND, COMMON, SOURCE),
        2,
        [9, NONE, NONE, NONE, NONE],
        [COMMON, 0, 5, NONE, NONE],
        [true, false],
    ),
    (
        "out of every place of all loops",
        Step::Leave(ObjId(8)),
        4,
        [NONE; 5],
        [NONE; 5],
        [false, false],
    ),
    (
        "the other item out of every place",
        Step::Leave(ObjId(9)),
        5,
        [NONE; 5],
        [NONE; 5],
        [false, true],
    ),
    (
        "an observer keeps no mode from being empty",
        Step::Add(FIRST, 5, OBSERVER),
        1,
        [NONE; 5],
        [NONE; 5],
        [false, true],
    ),
];

#[test]
fn steps(rt: HostRuntime) -> Result<(), Fail> {
    let alloc = rt.alloc();
    let mut loops = Loops::new(alloc, THREADS)?;
    for (case, step, count, first, second, marks) in &ROWS {
        let got = run(alloc, &mut loops, step)?;
        let tests = [
            loops.is_elsewhere(FIRST, SOURCE.id),
            loops.is_empty(FIRST, ModeId(5)),
        ];
        assert_eq!(rt;
            (
                got,
                places(&loops, FIRST, SOURCE.id),
                places(&loops, SECOND, SOURCE.id),
                tests
            ),
            (*count, *first, *second, *marks),
            "{case}"
        );
    }
    Ok(())
}
