//! Sources: which are collected, and which calls are refused.
use crate::items::{items, numbers, object};
use cf_ids::{ItemKind, ObjId};
use rl_sources::{NoMemory, Sources};
use std::alloc::Global;
use std::test::Fail;

// Five sources by number and order: 7 and 5 of order 1, 3 and 8 of order 0, 9 of order -2.
fn five(alloc: Global) -> Result<Sources, NoMemory> {
    let mut sources = Sources::new(alloc);
    sources.reserve(5)?;
    sources.make(ObjId(7), 1);
    sources.make(ObjId(3), 0);
    sources.make(ObjId(9), -2);
    sources.make(ObjId(5), 1);
    sources.make(ObjId(8), 0);
    Ok(sources)
}

#[derive(Clone, Copy)]
enum SourceCall {
    Signal(u16),
    Begin(u16),
    Invalidate(u16),
}

fn begin(sources: &mut Sources, number: u16) -> bool {
    let source = object(number);
    if !sources.is_valid(source) || !sources.is_signalled(source) {
        return false;
    }
    sources.begin_callout(source);
    true
}

/// Whether a call is done, and whether its source is valid and signalled then.
fn call(sources: &mut Sources, call: &SourceCall) -> [bool; 3] {
    let (number, done) = match *call {
        SourceCall::Signal(number) => (number, sources.signal(object(number)).is_ok()),
        SourceCall::Begin(number) => (number, begin(sources, number)),
        SourceCall::Invalidate(number) => (number, sources.invalidate(object(number)).is_ok()),
    };
    let source = object(number);
    [done, sources.is_valid(source), sources.is_signalled(source)]
}

/// What is collected of the items 9, 4, 5, 7 and 3, of which 4 is no source.
fn collected(alloc: Global, sources: &Sources) -> Result<[u32; 5], NoMemory> {
    let mut found = Vec::new(alloc);
    found.reserve(5)?;
    sources.collect(&items(ItemKind::Source, [9, 4, 5, 7, 3]), &mut found);
    Ok(numbers(&found))
}

// A call, what it answers, and what is collected then.
const SOURCE_CASES: [(&str, SourceCall, [bool; 3], [u32; 5]); 13] = [
    (
        "one signalled",
        SourceCall::Signal(7),
        [true, true, true],
        [7, 0, 0, 0, 0],
    ),
    (
        "a lower order comes first",
        SourceCall::Signal(9),
        [true, true, true],
        [9, 7, 0, 0, 0],
    ),
    (
        "an order between",
        SourceCall::Signal(3),
        [true, true, true],
        [9, 3, 7, 0, 0],
    ),
    (
        "of equal orders the lower number",
        SourceCall::Signal(5),
        [true, true, true],
        [9, 3, 5, 7, 0],
    ),
    (
        "one that is no item",
        SourceCall::Signal(8),
        [true, true, true],
        [9, 3, 5, 7, 0],
    ),
    (
        "a number of no source",
        SourceCall::Signal(4),
        [false, false, false],
        [9, 3, 5, 7, 0],
    ),
    (
        "signalled twice",
        SourceCall::Signal(3),
        [true, true, true],
        [9, 3, 5, 7, 0],
    ),
    (
        "one callout takes both signals",
        SourceCall::Begin(3),
        [true, true, false],
        [9, 5, 7, 0, 0],
    ),
    (
        "signalled again",
        SourceCall::Signal(3),
        [true, true, true],
        [9, 3, 5, 7, 0],
    ),
    (
        "an invalidated one stays signalled",
        SourceCall::Invalidate(9),
        [true, false, true],
        [3, 5, 7, 0, 0],
    ),
    (
        "an invalidated one is not signalled again",
        SourceCall::Signal(9),
        [false, false, true],
        [3, 5, 7, 0, 0],
    ),
    (
        "invalidated once",
        SourceCall::Invalidate(9),
        [false, false, true],
        [3, 5, 7, 0, 0],
    ),
    (
        "none of this number to invalidate",
        SourceCall::Invalidate(10),
        [false, false, false],
        [3, 5, 7, 0, 0],
    ),
];

#[test]
fn sources(rt: HostRuntime) -> Result<(), Fail> {
    let alloc = rt.alloc();
    let mut sources = five(alloc)?;
    sources.reserve(0)?;
    for (case, done, answer, wanted) in &SOURCE_CASES {
        let got = call(&mut sources, done);
        assert_eq!(rt;
            (got, collected(alloc, &sources)?),
            (*answer, *wanted),
            "{case}"
        );
    }
    Ok(())
}
