//! Frames that stand on one another.
use crate::rows::{Reply, Row};
use crate::ways::{Stage, assert_holds, wrong_of};
use crate::words::NONE;
use crate::worlds::World;
use cf_ids::ThreadId;
use std::test::Fail;

/// The thread runs a loop in which handler 0 is called.
const FIRST: [Row; 5] = [
    Row::Entry(("claim", 0, NONE), Reply::Plain, &[]),
    Row::Entry(("take", 0, 0), Reply::Object(5), &[]),
    Row::Entry(("run", 1, 1), Reply::Entered, &[]),
    Row::Entry(("note", 1, NONE), Reply::Plain, &[1]),
    Row::Entry(("call", 0, 1), Reply::Plain, &[]),
];

/// The handler runs a loop, in which it is called again.
const DEEPER: [Row; 4] = [
    Row::Entry(("retain", 0, 0), Reply::Plain, &[]),
    Row::Entry(("run", 1, 2), Reply::Entered, &[]),
    Row::Entry(("note", 1, NONE), Reply::Plain, &[4]),
    Row::Entry(("call", 0, 4), Reply::Plain, &[]),
];

/// The handler runs a loop in which nothing is called, and which is told to stop.
const DEEPEST: [Row; 4] = [
    Row::Entry(("retain", 0, 0), Reply::Plain, &[]),
    Row::Entry(("run", 1, 2), Reply::Entered, &[]),
    Row::Entry(("note", 1, NONE), Reply::Plain, &[]),
    Row::Stop(true),
];

/// The innermost run is over, its handler returns, and the run below goes on.
const BACK: [Row; 15] = [
    Row::Entry(("note", 2, NONE), Reply::Plain, &[]),
    Row::Entry(("note", 4, NONE), Reply::Plain, &[]),
    Row::Entry(("sources", NONE, NONE), Reply::Plain, &[]),
    Row::Entry(("note", 32, NONE), Reply::Plain, &[]),
    Row::Entry(("sleep", NONE, NONE), Reply::Plain, &[]),
    Row::Entry(("note", 64, NONE), Reply::Plain, &[]),
    Row::Entry(("timers", NONE, NONE), Reply::Plain, &[]),
    Row::Entry(("test", NONE, NONE), Reply::Plain, &[]),
    Row::Entry(("note", 128, NONE), Reply::Plain, &[]),
    Row::Entry(("ran", 2, NONE), Reply::Plain, &[]),
    Row::Entry(("release", 2, 0), Reply::Plain, &[]),
    Row::Entry(("return", NONE, NONE), Reply::Plain, &[]),
    Row::Entry(("owed", 0, NONE), Reply::Plain, &[]),
    Row::Entry(("owed", 4, NONE), Reply::Plain, &[]),
    Row::Entry(("note", 2, NONE), Reply::Plain, &[]),
];

const NESTED: [Stage; 4] = [
    Stage {
        world: World::Again,
        times: 1,
        rows: &FIRST,
    },
    Stage {
        world: World::Again,
        times: 62_500,
        rows: &DEEPER,
    },
    Stage {
        world: World::Again,
        times: 1,
        rows: &DEEPEST,
    },
    Stage {
        world: World::Again,
        times: 1,
        rows: &BACK,
    },
];

/// Runs and handlers stand on one another, 125,000 frames and some more, and the innermost of them ends.
#[test]
fn nested(rt: HostRuntime) -> Result<(), Fail> {
    let wrong = wrong_of(rt.alloc(), ThreadId(1), &NESTED)?;
    assert_holds(&rt, wrong);
    Ok(())
}
