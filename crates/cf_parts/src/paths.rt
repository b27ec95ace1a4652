//! Counts and paths of a graph of references.
use crate::check::assert_gives;
use cf_graph::{Edge, Owner, in_degree, owners, reached};
use cf_ids::{ModeId, ObjId, ThreadId};
use std::alloc::{AllocError, Global};
use std::test::Fail;

fn edge(owner: Owner, object: ObjId) -> Edge {
    Edge { owner, object }
}

/// Edges of owners of each kind.
fn counted() -> [Edge; 6] {
    [
        edge(Owner::Thread(ThreadId(0)), ObjId(0)),
        edge(Owner::Slot(ObjId(1)), ObjId(0)),
        edge(Owner::Parcel(ThreadId(2)), ObjId(0)),
        edge(Owner::Mode(ThreadId(0), ModeId(0)), ObjId(0)),
        edge(Owner::Common(ThreadId(0)), ObjId(0)),
        edge(Owner::Slot(ObjId(0)), ObjId(1)),
    ]
}

// An object, how many edges lead to it, and how many owners it has.
const COUNT_CASES: [(ObjId, &str); 3] = [(ObjId(0), "5 2"), (ObjId(1), "1 0"), (ObjId(2), "0 0")];

fn counts_of(alloc: Global, object: ObjId) -> Result<String, AllocError> {
    let edges = counted();
    format!(in alloc; "{} {}", in_degree(&edges, object), owners(&edges, object))
}

#[test]
fn counts(rt: HostRuntime) -> Result<(), Fail> {
    for (i, &(object, gives)) in COUNT_CASES.iter().enumerate() {
        let outcome = counts_of(rt.alloc(), object)?;
        assert_gives(
            &rt,
            i,
            outcome.as_str(),
            gives,
            "edges to an object, and owners",
        );
    }
    Ok(())
}

/// Two arrays that hold each other, and a thread that has one of them.
fn held() -> [Edge; 3] {
    [
        edge(Owner::Slot(ObjId(0)), ObjId(1)),
        edge(Owner::Slot(ObjId(1)), ObjId(0)),
        edge(Owner::Thread(ThreadId(0)), ObjId(0)),
    ]
}

// How many of those edges there are, and the objects that are reached.
const PATH_CASES: [(usize, &str, &str); 2] = [
    (2, "[]", "two arrays that hold each other are not reached"),
    (
        3,
        "[ObjId(0), ObjId(1)]",
        "a thread's array and what it holds are reached",
    ),
];

fn objects_reached(alloc: Global, count: usize) -> Result<String, AllocError> {
    let edges = held();
    let found = reached(alloc, &edges[..count.min(3)])?;
    format!(in alloc; "{:?}", found.as_slice())
}

#[test]
fn paths(rt: HostRuntime) -> Result<(), Fail> {
    for (i, &(count, gives, about)) in PATH_CASES.iter().enumerate() {
        let outcome = objects_reached(rt.alloc(), count)?;
        assert_gives(&rt, i, outcome.as_str(), gives, about);
    }
    Ok(())
}
