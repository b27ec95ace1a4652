//! Whole ways of threads through a script, entry by entry.
use crate::rows::{Reply, Row};
use crate::ways::{Stage, assert_holds, wrong_of};
use crate::words::NONE;
use crate::worlds::World;
use cf_ids::ThreadId;
use std::test::Fail;

/// Setup makes an object and retains it 65 times: what is ahead reaches behind 64 of them, and a post comes after.
/// There is no run.
const RETAINED: [Row; 5] = [
    Row::Entry(("make", 0, NONE), Reply::Object(0), &[]),
    Row::Ahead(64, 0),
    Row::Ahead(65, NONE),
    Row::Retains(1, 65),
    Row::Stop(false),
];

/// A notice is posted; its handler runs a loop, in which a handler is called, and its observer is spent.
const POSTED: [Row; 8] = [
    Row::Entry(("post", 66, 0), Reply::Plain, &[1, 0, 2]),
    Row::Entry(("call", 0, NONE), Reply::Plain, &[]),
    Row::Entry(("retain", 0, 4), Reply::Plain, &[]),
    Row::Entry(("run", 1, 2), Reply::Entered, &[]),
    Row::Entry(("note", 1, NONE), Reply::Plain, &[4]),
    Row::Entry(("call", 1, 4), Reply::Plain, &[]),
    Row::Entry(("return", NONE, NONE), Reply::Plain, &[]),
    Row::Entry(("spend", 4, NONE), Reply::Plain, &[3]),
];

/// Work comes first, so that nothing is ahead. In the loop a timer fits, until the run is told to stop.
const RUN: [Row; 14] = [
    Row::Ahead(0, NONE),
    Row::Collected,
    Row::Run(2, None, false),
    Row::Entry(("owed", 3, NONE), Reply::Plain, &[]),
    Row::Entry(("owed", 4, NONE), Reply::Plain, &[]),
    Row::Entry(("note", 2, NONE), Reply::Plain, &[]),
    Row::Entry(("note", 4, NONE), Reply::Plain, &[]),
    Row::Entry(("sources", NONE, NONE), Reply::Plain, &[]),
    Row::Entry(("note", 32, NONE), Reply::Plain, &[]),
    Row::Entry(("sleep", NONE, NONE), Reply::Plain, &[]),
    Row::Entry(("note", 64, NONE), Reply::Plain, &[]),
    Row::Entry(("timers", NONE, NONE), Reply::Plain, &[3]),
    Row::Next(("call", 1, 3)),
    Row::Stop(true),
];

/// At an earlier time it does not fit. The run and the handlers end, and setup packs.
const ENDED: [Row; 14] = [
    Row::Entry(("test", NONE, NONE), Reply::Plain, &[]),
    Row::Entry(("note", 128, NONE), Reply::Plain, &[]),
    Row::Entry(("ran", 2, NONE), Reply::Plain, &[]),
    Row::Entry(("release", 2, 4), Reply::Final, &[]),
    Row::Entry(("drop", 0, 0), Reply::Plain, &[]),
    Row::Entry(("drop", 1, 5), Reply::Plain, &[]),
    Row::Entry(("return", NONE, NONE), Reply::Plain, &[]),
    Row::Entry(("owed", 4, NONE), Reply::Plain, &[]),
    Row::Entry(("call", 1, NONE), Reply::Plain, &[]),
    Row::Entry(("return", NONE, NONE), Reply::Plain, &[]),
    Row::Entry(("owed", 1, NONE), Reply::Plain, &[]),
    Row::Entry(("pack", 1, 0), Reply::Plain, &[]),
    Row::Entry(("done", NONE, NONE), Reply::Plain, &[]),
    Row::Entry(("nothing", NONE, NONE), Reply::Plain, &[]),
];

const SETUP: [Stage; 4] = [
    Stage {
        world: World::Usual,
        times: 1,
        rows: &RETAINED,
    },
    Stage {
        world: World::Usual,
        times: 1,
        rows: &POSTED,
    },
    Stage {
        world: World::Usual,
        times: 1,
        rows: &RUN,
    },
    Stage {
        world: World::Earlier,
        times: 1,
        rows: &ENDED,
    },
];

/// Setup: 65 retains, a notice whose handler runs a loop in which a handler is called, and what is packed.
#[test]
fn setup(rt: HostRuntime) -> Result<(), Fail> {
    let wrong = wrong_of(rt.alloc(), ThreadId::SETUP, &SETUP)?;
    assert_holds(&rt, wrong);
    Ok(())
}

/// A handler runs another loop in the run, which is told to stop.
const ENTERED: [Row; 10] = [
    Row::Entry(("claim", 0, NONE), Reply::Plain, &[]),
    Row::Entry(("take", 0, 0), Reply::Object(5), &[]),
    Row::Entry(("run", 1, 1), Reply::Entered, &[]),
    Row::Entry(("note", 1, NONE), Reply::Plain, &[1]),
    Row::Entry(("call", 0, 1), Reply::Plain, &[]),
    Row::Entry(("retain", 0, 0), Reply::Plain, &[]),
    Row::Entry(("run", 1, 2), Reply::Entered, &[]),
    Row::Entry(("note", 1, NONE), Reply::Plain, &[]),
    Row::Stop(true),
    Row::Run(2, None, true),
];

/// The inner run ends, and the outer one is told to stop.
const INNER: [Row; 13] = [
    Row::Entry(("note", 2, NONE), Reply::Plain, &[]),
    Row::Entry(("note", 4, NONE), Reply::Plain, &[]),
    Row::Entry(("sources", NONE, NONE), Reply::Plain, &[]),
    Row::Entry(("note", 32, NONE), Reply::Plain, &[]),
    Row::Entry(("sleep", NONE, NONE), Reply::Plain, &[]),
    Row::Entry(("note", 64, NONE), Reply::Plain, &[]),
    Row::Entry(("timers", NONE, NONE), Reply::Plain, &[]),
    Row::Entry(("test", NONE, NONE), Reply::Plain, &[]),
    Row::Entry(("note", 128, NONE), Reply::Plain, &[]),
    Row::Entry(("ran", 2, NONE), Reply::Plain, &[]),
    Row::Run(1, Some(15), false),
    Row::Stop(true),
    Row::Run(1, Some(15), true),
];

/// The outer run ends once a source was called, and the block is at its end.
const OUTER: [Row; 16] = [
    Row::Entry(("release", 2, 0), Reply::Plain, &[]),
    Row::Entry(("return", NONE, NONE), Reply::Plain, &[]),
    Row::Entry(("owed", 0, NONE), Reply::Plain, &[]),
    Row::Entry(("owed", 1, NONE), Reply::Plain, &[]),
    Row::Entry(("note", 2, NONE), Reply::Plain, &[]),
    Row::Entry(("note", 4, NONE), Reply::Plain, &[]),
    Row::Entry(("sources", NONE, NONE), Reply::Plain, &[2, 5]),
    Row::Entry(("call", 1, 2), Reply::Plain, &[]),
    Row::Entry(("return", NONE, NONE), Reply::Plain, &[]),
    Row::Entry(("owed", 2, NONE), Reply::Plain, &[]),
    Row::Entry(("timers", NONE, NONE), Reply::Plain, &[]),
    Row::Entry(("test", NONE, NONE), Reply::Plain, &[]),
    Row::Entry(("note", 128, NONE), Reply::Plain, &[]),
    Row::Entry(("ran", 1, NONE), Reply::Plain, &[]),
    Row::Entry(("release", 2, 0), Reply::Plain, &[]),
    Row::Ahead(0, NONE),
];

const DONE: [Row; 2] = [
    Row::Entry(("done", NONE, NONE), Reply::Plain, &[]),
    Row::Entry(("nothing", NONE, NONE), Reply::Plain, &[]),
];

const TWO_RUNS: [Stage; 4] = [
    Stage {
        world: World::Usual,
        times: 1,
        rows: &ENTERED,
    },
    Stage {
        world: World::Usual,
        times: 1,
        rows: &INNER,
    },
    Stage {
        world: World::Usual,
        times: 1,
        rows: &OUTER,
    },
    Stage {
        world: World::Usual,
        times: 1,
        rows: &DONE,
    },
];

/// A thread whose run ends once a source was called: the second one that was collected is passed over. A handler runs
/// another loop in it, which is told to stop first.
#[test]
fn two_runs(rt: HostRuntime) -> Result<(), Fail> {
    let wrong = wrong_of(rt.alloc(), ThreadId(1), &TWO_RUNS)?;
    assert_holds(&rt, wrong);
    Ok(())
}
