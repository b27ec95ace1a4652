//! Nodes in linked lists: each call on its happy path.
ghost use Rattle.std.specs.Prelude.{◌≡◌, ◌<◌, [], length, None, IsTrue, IsSome};
ghost use Rattle.cf_links.specs.Lists.{value_at, list_of};

use crate::check::assert_gives;
use cf_links::{Links, ListId, Node};
use std::alloc::{AllocError, Global};
use std::test::Fail;

/// Whether a node is there and in no list.
fn is_loose(links: &Links<u8>, n: Node) -> bool
    ensures there { IsTrue result → IsSome (value_at links.now n) }
    ensures loose { IsTrue result → list_of links.now.lists n ≡ None }
{
    links.value(n).is_some() && links.list_of(n).is_none()
}

/// Whether a node is in a list.
fn is_linked(links: &Links<u8>, n: Node) -> bool
    ensures { IsTrue result → IsSome (list_of links.now.lists n) }
{
    links.list_of(n).is_some()
}

fn push_back(links: &mut Links<u8>, l: ListId, n: Node) -> bool
    requires { l < length links.old.lists }
    ensures { length links.new.lists ≡ length links.old.lists }
{
    if !is_loose(links, n) {
        return false;
    }
    links.push_back(l, n);
    true
}

fn push_front(links: &mut Links<u8>, l: ListId, n: Node) -> bool
    requires { l < length links.old.lists }
{
    if !is_loose(links, n) {
        return false;
    }
    links.push_front(l, n);
    true
}

fn insert_after(links: &mut Links<u8>, at: Node, n: Node) -> bool {
    if !is_loose(links, n) || !is_linked(links, at) {
        return false;
    }
    links.insert_after(at, n);
    true
}

fn insert_before(links: &mut Links<u8>, at: Node, n: Node) -> bool {
    if !is_loose(links, n) || !is_linked(links, at) {
        return false;
    }
    links.insert_before(at, n);
    true
}

fn unlink(links: &mut Links<u8>, n: Node) -> bool {
    if !is_linked(links, n) {
        return false;
    }
    links.unlink(n);
    true
}

/// The values of the first five nodes of a list, and zeros past its end.
fn values(links: &Links<u8>, l: ListId) -> [u8; 5] {
    let mut found = [0; 5];
    let mut at = links.first(l);
    for place in 0..5 {
        if let Some(n) = at {
            found[place] = links.value(n).copied().unwrap_or(0);
            at = links.next(n);
        }
    }
    found
}

// New lists after a call for no room, and whether it was accepted: neither room has grown.
fn with_no_room(alloc: Global) -> (Links<u8>, bool)
    ensures rooms { result.0 ≡ record { lists = []; values = []; list_room = 0; node_room = 0 } }
    ensures accepted { IsTrue result.1 }
{
    let mut links = Links::new(alloc);
    let accepted = links.reserve(0).is_ok();
    (links, accepted)
}

/// Lists after a call for no room, one list, and four nodes that were made, of which three were put into it.
#[derive(Drop)]
struct Fixture {
    links: Links<u8>,
    takes_none: bool,
    is_pushed: bool,
    list: ListId,
    nodes: [Node; 4],
}

fn fixture_of(alloc: Global) -> Result<Fixture, AllocError> {
    let (mut links, takes_none) = with_no_room(alloc);
    links.reserve(4)?;
    let list = links.make_list();
    let (a, b) = (links.make(1), links.make(2));
    let (c, d) = (links.make(3), links.make(4));
    let is_first = push_back(&mut links, list, a);
    let is_before = push_front(&mut links, list, b);
    let is_between = insert_after(&mut links, b, c);
    Ok(Fixture {
        links,
        takes_none,
        is_pushed: is_first && is_before && is_between,
        list,
        nodes: [a, b, c, d],
    })
}

/// A step after the nodes were put into the list.
#[derive(Clone, Copy)]
enum Step {
    /// Whether there was room for no node, and whether each of three was ready.
    Look,
    /// The third node is not freed while it is in the list.
    FreeLinked,
    Unlink,
    Free,
    InsertBefore,
}

// A step, and what it gives: its answer, the values in the list, and how the nodes stand.
const STEPS: [(Step, &str, &str); 6] = [
    (
        Step::Look,
        "true true",
        "room for none, and each node is ready for its step",
    ),
    (Step::FreeLinked, "[2, 3, 1, 0, 0] None true", "three nodes"),
    (
        Step::Unlink,
        "true [2, 1, 0, 0, 0] true",
        "the middle one out",
    ),
    (Step::Free, "Some(3) Some(1)", "freed"),
    (Step::Free, "None Some(1)", "freed once"),
    (
        Step::InsertBefore,
        "true [2, 4, 1, 0, 0] true true",
        "one before another",
    ),
];

/// The values in a list, what a free of a node in it gives, and whether it is still there.
fn free_linked(
    alloc: Global,
    links: &mut Links<u8>,
    l: ListId,
    n: Node,
) -> Result<String, AllocError> {
    let before = values(links, l);
    let freed = links.free(n);
    let is_there = links.list_of(n) == Some(l);
    format!(in alloc; "{before:?} {freed:?} {is_there}")
}

/// Whether a node is taken out, the values that are left, and whether it is in no list.
fn take_out(
    alloc: Global,
    links: &mut Links<u8>,
    l: ListId,
    n: Node,
) -> Result<String, AllocError> {
    let done = unlink(links, n);
    let left = values(links, l);
    let is_out = links.list_of(n).is_none();
    format!(in alloc; "{done} {left:?} {is_out}")
}

/// What a free of a node gives, and the value of another node.
fn free_beside(
    alloc: Global,
    links: &mut Links<u8>,
    n: Node,
    other: Node,
) -> Result<String, AllocError> {
    let freed = links.free(n);
    format!(in alloc; "{freed:?} {:?}", links.value(other))
}

/// Whether a node is put before another, the values then, and whether it stands there and a third node first.
fn put_before(
    alloc: Global,
    links: &mut Links<u8>,
    l: ListId,
    nodes: &[Node; 4],
) -> Result<String, AllocError> {
    let [at, first, _, n] = *nodes;
    let done = insert_before(links, at, n);
    let now = values(links, l);
    let is_before = links.prev(at) == Some(n);
    let is_first = links.prev(first).is_none();
    format!(in alloc; "{done} {now:?} {is_before} {is_first}")
}

fn outcome_of(alloc: Global, fixture: &mut Fixture, step: Step) -> Result<String, AllocError> {
    let [a, _, c, _] = fixture.nodes;
    let list = fixture.list;
    match step {
        Step::Look => format!(in alloc; "{} {}", fixture.takes_none, fixture.is_pushed),
        Step::FreeLinked => free_linked(alloc, &mut fixture.links, list, c),
        Step::Unlink => take_out(alloc, &mut fixture.links, list, c),
        Step::Free => free_beside(alloc, &mut fixture.links, c, a),
        Step::InsertBefore => put_before(alloc, &mut fixture.links, list, &fixture.nodes),
    }
}

#[test]
fn linked_nodes(rt: HostRuntime) -> Result<(), Fail> {
    let mut fixture = fixture_of(rt.alloc())?;
    for (i, &(step, gives, about)) in STEPS.iter().enumerate() {
        let outcome = outcome_of(rt.alloc(), &mut fixture, step)?;
        assert_gives(&rt, i, outcome.as_str(), gives, about);
    }
    Ok(())
}
