//! The references that places of loops have.
use crate::items::{COMMON, FIRST, SECOND, SOURCE, THREADS, TIMER, add};
use cf_graph::{Edge, Owner};
use cf_loops::{Loops, NoMemory};
use std::alloc::Global;
use std::test::Fail;

// A source among the common items of the first thread, a timer in its mode 4, and the source in mode 2 of the second.
fn listed(alloc: Global) -> Result<Vec<Edge>, NoMemory> {
    let mut loops = Loops::new(alloc, THREADS)?;
    add(&mut loops, SECOND, 2, &SOURCE)?;
    add(&mut loops, FIRST, 4, &TIMER)?;
    add(&mut loops, FIRST, COMMON, &SOURCE)?;
    let mut edges = Vec::new(alloc);
    if loops.threads() <= 64 {
        loops.add_edges(&mut edges)?;
    }
    Ok(edges)
}

/// The thread of an edge, its place, and its object.
fn told(edge: &Edge) -> (u8, u16, u32) {
    match edge.owner {
        Owner::Common(t) => (t.0, COMMON, edge.object.0),
        Owner::Mode(t, m) => (t.0, m.0, edge.object.0),
        _ => (0, 0, 0),
    }
}

// The edges, the common items of a loop first, then its modes.
const WANTED: [(u8, u16, u32); 5] = [(1, COMMON, 8), (1, 0, 8), (1, 4, 9), (2, 2, 8), (0, 0, 0)];

#[test]
fn edges(rt: HostRuntime) -> Result<(), Fail> {
    let edges = listed(rt.alloc())?;
    for (k, wanted) in WANTED.iter().enumerate() {
        let got = edges.as_slice().get(k).map_or((0, 0, 0), |edge| told(edge));
        assert_eq!(rt; got, *wanted, "edge {k}");
    }
    Ok(())
}
