//! The links of nodes and lists, and the steps that change them.
ghost use Rattle.std.specs.Prelude.{◌≡◌, ◌<◌, List, None, Some, length};
ghost use Rattle.cf_links.specs.declared.joins.Ends.{Ends};
ghost use Rattle.std.specs.Option.{ForSome};
ghost use Rattle.cf_links.specs.Chain.{Leads, mirror, Joins, Marks, Clears, Puts, Removes};
ghost use Rattle.cf_links.specs.Fields.{CanStand, IsThere, SameNodes, web_of};
ghost use Rattle.cf_links.specs.Sides.{end_gap, gap_beside};

use crate::numbers::{ListId, Node};
use slab::Slab;

// A node: its value, the list that it is in, and its neighbours there.
#[derive(Drop)]
pub struct NodeRecord<T> {
    pub value: T,
    pub list: Option<ListId>,
    pub prev: Option<Node>,
    pub next: Option<Node>,
}

// The first and the last node of a list.
#[derive(Clone, Copy)]
pub struct Ends {
    pub first: Option<Node>,
    pub last: Option<Node>,
}

// One of the two sides of a node among the others of its list; of a list, the front or the end.
#[derive(Clone, Copy)]
pub enum Side {
    Before,
    After,
}

// Two that are joined, between which a node comes in or stands. `None` stands for the list itself.
#[derive(Clone, Copy)]
pub struct Gap {
    pub from: Option<Node>,
    pub to: Option<Node>,
}

// The gap at one end of a list.
pub fn end_gap(side: Side, ends: Ends) -> Gap
    ensures { result ≡ end_gap side ends.first ends.last }
{
    match side {
        Side::Before => Gap {
            from: None,
            to: ends.first,
        },
        Side::After => Gap {
            from: ends.last,
            to: None,
        },
    }
}

// The gap beside a node with these neighbours.
pub fn gap_beside(side: Side, at: Node, prev: Option<Node>, next: Option<Node>) -> Gap
    ensures { result ≡ gap_beside side at prev next }
{
    match side {
        Side::Before => Gap {
            from: prev,
            to: Some(at),
        },
        Side::After => Gap {
            from: Some(at),
            to: next,
        },
    }
}

// Lets the link onwards from `from`, or from the list itself, lead to `to`.
fn set_next<T>(
    nodes: &mut Slab<NodeRecord<T>>,
    ends: &mut [Ends],
    list: ListId,
    from: Option<Node>,
    to: Option<Node>,
)
    requires there { ForSome from (λ b. IsThere nodes.old b) }
    requires made { list < length ends.old }
    ensures leads { Leads (web_of nodes.old ends.old) (web_of nodes.new ends.new) list from to }
    ensures same { SameNodes nodes.old nodes.new }
    ensures count { length ends.new ≡ length ends.old }
{
    match from {
        Some(node) => {
            let entry = &mut nodes[node.0];
            entry.next = to;
        }
        None => {
            let end = &mut ends[list.0];
            end.first = to;
        }
    }
}

// Lets the link backwards from `from`, or from the list itself, lead to `to`.
fn set_prev<T>(
    nodes: &mut Slab<NodeRecord<T>>,
    ends: &mut [Ends],
    list: ListId,
    from: Option<Node>,
    to: Option<Node>,
)
    requires there { ForSome from (λ b. IsThere nodes.old b) }
    requires made { list < length ends.old }
    ensures leads { Leads (mirror (web_of nodes.old ends.old)) (mirror (web_of nodes.new ends.new)) list from to }
    ensures same { SameNodes nodes.old nodes.new }
    ensures count { length ends.new ≡ length ends.old }
{
    match from {
        Some(node) => {
            let entry = &mut nodes[node.0];
            entry.prev = to;
        }
        None => {
            let end = &mut ends[list.0];
            end.last = to;
        }
    }
}

// Lets `to` come right after `from`. `None` stands for the list itself.
fn join<T>(
    nodes: &mut Slab<NodeRecord<T>>,
    ends: &mut [Ends],
    list: ListId,
    from: Option<Node>,
    to: Option<Node>,
)
    requires from_there { ForSome from (λ b. IsThere nodes.old b) }
    requires to_there { ForSome to (λ b. IsThere nodes.old b) }
    requires made { list < length ends.old }
    ensures joins { Joins (web_of nodes.old ends.old) (web_of nodes.new ends.new) list from to }
    ensures same { SameNodes nodes.old nodes.new }
    ensures count { length ends.new ≡ length ends.old }
{
    // Each of the two is passed on twice, so it is copied first.
    let (back, onwards) = (from, to);
    set_next(nodes, ends, list, from, to);
    set_prev(nodes, ends, list, onwards, back);
}

// Gives a node the mark of a list.
fn mark<T>(nodes: &mut Slab<NodeRecord<T>>, n: Node, list: ListId)
    requires there { IsThere nodes.old n }
    ensures marks { (ends : List Ends) → Marks (web_of nodes.old ends) (web_of nodes.new ends) n (Some list) }
    ensures same { SameNodes nodes.old nodes.new }
{
    let entry = &mut nodes[n.0];
    entry.list = Some(list);
}

// Clears the mark and the neighbours of a node.
fn clear<T>(nodes: &mut Slab<NodeRecord<T>>, n: Node)
    requires there { IsThere nodes.old n }
    ensures clears { (ends : List Ends) → Clears (web_of nodes.old ends) (web_of nodes.new ends) n }
    ensures same { SameNodes nodes.old nodes.new }
{
    let entry = &mut nodes[n.0];
    entry.list = None;
    entry.prev = None;
    entry.next = None;
}

// Puts a node into a list, in a gap of it.
pub fn put<T>(nodes: &mut Slab<NodeRecord<T>>, ends: &mut [Ends], list: ListId, n: Node, gap: Gap)
    requires { CanStand nodes.old ends.old list n gap }
    ensures puts { Puts (web_of nodes.old ends.old) (web_of nodes.new ends.new) list n gap.from gap.to }
    ensures same { SameNodes nodes.old nodes.new }
    ensures count { length ends.new ≡ length ends.old }
{
    join(nodes, ends, list, gap.from, Some(n));
    join(nodes, ends, list, Some(n), gap.to);
    mark(nodes, n, list);
}

// Removes a node from a list, where it stands in this gap.
pub fn remove<T>(
    nodes: &mut Slab<NodeRecord<T>>,
    ends: &mut [Ends],
    list: ListId,
    n: Node,
    gap: Gap,
)
    requires { CanStand nodes.old ends.old list n gap }
    ensures removes { Removes (web_of nodes.old ends.old) (web_of nodes.new ends.new) list n gap.from gap.to }
    ensures same { SameNodes nodes.old nodes.new }
    ensures count { length ends.new ≡ length ends.old }
{
    join(nodes, ends, list, gap.from, gap.to);
    clear(nodes, n);
}
