//! What was collected and does not fit any more, and work of each kind in front.
use crate::rows::{Reply, Row};
use crate::ways::{Stage, assert_holds, wrong_of};
use crate::words::NONE;
use crate::worlds::World;
use cf_ids::ThreadId;
use std::test::Fail;

/// Two sources are collected.
const COLLECTED: [Row; 7] = [
    Row::Entry(("claim", 0, NONE), Reply::Plain, &[]),
    Row::Entry(("take", 0, 0), Reply::Object(5), &[]),
    Row::Entry(("run", 1, 1), Reply::Entered, &[]),
    Row::Entry(("note", 1, NONE), Reply::Plain, &[]),
    Row::Entry(("note", 2, NONE), Reply::Plain, &[]),
    Row::Entry(("note", 4, NONE), Reply::Plain, &[]),
    Row::Entry(("sources", NONE, NONE), Reply::Plain, &[2, 5]),
];

/// The first of them is passed over.
const PASSED: [Row; 1] = [Row::Next(("call", 1, 5))];

const PASSED_OVER: [Stage; 4] = [
    Stage {
        world: World::Usual,
        times: 1,
        rows: &COLLECTED,
    },
    Stage {
        world: World::Invalid,
        times: 1,
        rows: &PASSED,
    },
    Stage {
        world: World::Quiet,
        times: 1,
        rows: &PASSED,
    },
    Stage {
        world: World::Elsewhere,
        times: 1,
        rows: &PASSED,
    },
];

/// A source that was collected and does not fit any more is passed over, and the next one is called.
#[test]
fn passed_over(rt: HostRuntime) -> Result<(), Fail> {
    let wrong = wrong_of(rt.alloc(), ThreadId(1), &PASSED_OVER)?;
    assert_holds(&rt, wrong);
    Ok(())
}

/// After a handler returned, its info is released, its item is spent and released. The info is finalised, so that its
/// slots come first.
const IN_FRONT: [Row; 12] = [
    Row::Entry(("claim", 0, NONE), Reply::Plain, &[]),
    Row::Entry(("take", 0, 0), Reply::Object(5), &[]),
    Row::Entry(("run", 1, 1), Reply::Entered, &[]),
    Row::Entry(("note", 1, NONE), Reply::Plain, &[1]),
    Row::Entry(("call", 1, 1), Reply::Plain, &[]),
    Row::Entry(("return", NONE, NONE), Reply::Plain, &[]),
    Row::Entry(("owed", 4, NONE), Reply::Final, &[]),
    Row::Entry(("drop", 0, 0), Reply::Plain, &[]),
    Row::Entry(("drop", 1, 5), Reply::Plain, &[]),
    Row::Entry(("spend", 1, NONE), Reply::Plain, &[]),
    Row::Entry(("owed", 1, NONE), Reply::Plain, &[]),
    Row::Entry(("note", 2, NONE), Reply::Plain, &[]),
];

const WORK: [Stage; 1] = [Stage {
    world: World::Once,
    times: 1,
    rows: &IN_FRONT,
}];

/// Slots, an item that is spent and a release are in front at once.
#[test]
fn work_of_each_kind(rt: HostRuntime) -> Result<(), Fail> {
    let wrong = wrong_of(rt.alloc(), ThreadId(1), &WORK)?;
    assert_holds(&rt, wrong);
    Ok(())
}
