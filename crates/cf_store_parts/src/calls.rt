//! What is done to sources, and what a loop collects of them.
ghost use Rattle.std.specs.Prelude.{◌≡◌};
ghost use Rattle.cf_store.specs.Sources.{item_at, is_valid_source, is_signalled_source};

use crate::sample::{fill, object};
use cf_body::{ItemState, LoopItem};
use cf_ids::{Item, ItemKind, ObjId};
use cf_store::{NoMemory, Store};
use std::alloc::Global;
use std::test::Fail;

/// What is done to an object.
#[derive(Clone, Copy)]
enum Act {
    Signal(u16),
    Begin(u16),
    Invalidate(u16),
}

/// Whether an object is a valid source.
fn is_valid(store: &Store, o: ObjId) -> bool
    ensures { result ≡ is_valid_source (item_at store.now.bodies o) }
{
    match store.item(o) {
        Some(
            LoopItem {
                valid,
                state: ItemState::Source { .. },
                ..
            },
        ) => valid,
        None => false,
    }
}

/// Whether an object is a source that is signalled.
fn is_signalled(store: &Store, o: ObjId) -> bool
    ensures { result ≡ is_signalled_source (item_at store.now.bodies o) }
{
    match store.item(o) {
        Some(item) => item.is_signalled(),
        None => false,
    }
}

/// Signals a source, if it is valid.
fn signal(store: &mut Store, o: ObjId) -> bool {
    let may = is_valid(store, o);
    if may {
        store.signal(o);
    }
    may
}

/// Lets the callout of a source begin, if it is valid and signalled.
fn begin(store: &mut Store, o: ObjId) -> bool {
    let may = is_valid(store, o) && is_signalled(store, o);
    if may {
        store.begin_callout(o);
    }
    may
}

/// Invalidates a source, if it is valid.
fn invalidate(store: &mut Store, o: ObjId) -> bool {
    let may = is_valid(store, o);
    if may {
        store.invalidate(o);
    }
    may
}

/// Whether it can be done, and whether the source is valid and signalled then.
fn outcome(store: &mut Store, done: &Act) -> [bool; 3] {
    let (number, was_done) = match *done {
        Act::Signal(number) => (number, signal(store, object(number))),
        Act::Begin(number) => (number, begin(store, object(number))),
        Act::Invalidate(number) => (number, invalidate(store, object(number))),
    };
    let source = object(number);
    [
        was_done,
        is_valid(store, source),
        is_signalled(store, source),
    ]
}

/// What is collected of the items 3, 0, 1 and 2, of which 0 is no source.
fn collected(alloc: Global, store: &Store) -> Result<[u32; 3], NoMemory> {
    let items = [3, 0, 1, 2].map(|number| Item {
        id: object(number),
        kind: ItemKind::Source,
    });
    let mut found = Vec::new(alloc);
    found.reserve(4)?;
    store.collect_sources(&items, &mut found);
    let at = |i: usize| found.get(i).map_or(0, |source| source.0);
    Ok([at(0), at(1), at(2)])
}

// What is done, what comes of it, and what is collected then.
const CASES: [(&str, Act, [bool; 3], [u32; 3]); 10] = [
    (
        "not signalled, so there is no callout",
        Act::Begin(1),
        [false, true, false],
        [0, 0, 0],
    ),
    ("one", Act::Signal(1), [true, true, true], [1, 0, 0]),
    (
        "of equal orders the lower number",
        Act::Signal(3),
        [true, true, true],
        [1, 3, 0],
    ),
    (
        "a lower order comes first",
        Act::Signal(2),
        [true, true, true],
        [2, 1, 3],
    ),
    (
        "no source",
        Act::Signal(0),
        [false, false, false],
        [2, 1, 3],
    ),
    (
        "a callout takes the signal",
        Act::Begin(2),
        [true, true, false],
        [1, 3, 0],
    ),
    (
        "an invalid source stays signalled",
        Act::Invalidate(1),
        [true, false, true],
        [3, 0, 0],
    ),
    (
        "an invalid source is not signalled again",
        Act::Signal(1),
        [false, false, true],
        [3, 0, 0],
    ),
    (
        "an invalid source has no callout",
        Act::Begin(1),
        [false, false, true],
        [3, 0, 0],
    ),
    (
        "none of this number",
        Act::Invalidate(4),
        [false, false, false],
        [3, 0, 0],
    ),
];

#[test]
fn sources(rt: HostRuntime) -> Result<(), Fail> {
    let alloc = rt.alloc();
    let mut store = Store::new(alloc);
    fill(alloc, &mut store)?;
    for (case, done, answer, wanted) in &CASES {
        let got = outcome(&mut store, done);
        assert_eq!(rt;
            (got, collected(alloc, &store)?),
            (*answer, *wanted),
            "{case}"
        );
    }
    Ok(())
}
