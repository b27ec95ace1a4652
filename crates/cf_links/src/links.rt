//! Lists whose nodes name their neighbours by numbers.
ghost use Rattle.std.specs.Prelude.{◌≡◌, ◌≢◌, ◌+◌, ◌-◌, ◌<◌, ◌≤◌, ◌++◌, ◌∷◌, [], ℕ, map, length, slice_get, slice_set, Some, None, IsOk, IsSome, IfNone, OnOk, OnErr, OnSome, option_copied, vec_len, vec_capacity};
ghost use Rattle.slab.specs.Slab.{slab_len};
ghost use Rattle.cf_links.specs.Sides.{with_end, put_beside};
ghost use Rattle.cf_links.specs.Lists.{value_at, loose_value, nodes_of, list_of, next_of, prev_of, with_first, with_last, put_before, put_after, without, without_node, IsValid};

use crate::NoMemory;
use crate::joins::{Ends, Gap, NodeRecord, Side, end_gap, gap_beside, put, remove};
use crate::numbers::{ListId, Node};
use slab::Slab;
use std::alloc::Global;
use std::marker::Model;

/// Lists of nodes with values. A node is in one list at most, and in one place of it.
///
/// No call walks a list, and only `reserve` takes memory.
#[derive(Drop)]
pub struct Links<T> {
    nodes: Slab<NodeRecord<T>>,
    ends: Vec<Ends>,
}

impl<T> Model for Links<T> {
    ghost use Rattle.cf_links.specs.Lists.{Lists, lists_code};

    ghost Value = { Lists T };

    ghost coded = { lists_code T.code };

    ghost use Rattle.cf_links.specs.Fields.{view_of, IsSound};

    ghost view = { λ s. view_of s.nodes s.ends };

    ghost invariant = { λ s. IsSound s.nodes s.ends.items };
}

impl<T> Links<T> {
    /// No list and no node. It takes no memory.
    pub fn new(alloc: Global) -> Self
        ensures empty { result ≡ record { lists = []; values = []; list_room = 0; node_room = 0 } }
    {
        Links {
            nodes: Slab::new(alloc),
            ends: Vec::new(alloc),
        }
    }

    /// Makes room for `more` further lists and as many further nodes. `NoMemory` comes only if one of the two rooms
    /// was less. The room for nodes is made first, and it may have grown if the room for lists is refused.
    pub fn reserve(&mut self, more: usize) -> Result<(), NoMemory>
        // The lists and the values stay, whatever the result.
        ensures contents { self.new ≡ record self.old {
          list_room = self.new.list_room;
          node_room = self.new.node_room;
        } }
        ensures lists_fit { OnOk result (more ≤ self.new.list_room) }
        ensures nodes_fit { OnOk result (more ≤ self.new.node_room) }
        ensures enough { more ≤ self.old.list_room → more ≤ self.old.node_room → IsOk result }

        // Neither room shrinks, and a room that was there stays as it was.
        ensures list_room { self.old.list_room ≤ self.new.list_room }
        ensures node_room { self.old.node_room ≤ self.new.node_room }
        ensures had_lists { more ≤ self.old.list_room → self.new.list_room ≡ self.old.list_room }
        ensures had_nodes { more ≤ self.old.node_room → self.new.node_room ≡ self.old.node_room }
        ensures refused { OnErr result (self.new.list_room ≡ self.old.list_room) }
    {
        reserve_nodes(&mut self.nodes, more)?;
        reserve_lists(&mut self.ends, more)
    }

    /// Makes an empty list.
    pub fn make_list(&mut self) -> ListId
        requires room { 1 ≤ self.old.list_room }
        ensures number { result ≡ length self.old.lists }
        ensures made { self.new ≡ record self.old {
          lists = self.old.lists ++ [] ∷ [];
          list_room = self.old.list_room - 1;
        } }
    {
        let number = self.ends.len();
        self.ends.push_reserved(Ends {
            first: None,
            last: None,
        });
        ListId(number)
    }

    /// Makes a node with this value. It is in no list.
    pub fn make(&mut self, v: T) -> Node
        requires room { 1 ≤ self.old.node_room }
        ensures was_free { value_at self.old result ≡ None }
        ensures value { value_at self.new result ≡ Some v }
        ensures others { (m : ℕ) → m ≢ result → value_at self.new m ≡ value_at self.old m }
        ensures loose { list_of self.new.lists result ≡ None }
        ensures rest { self.new ≡ record self.old {
          values = self.new.values;
          node_room = self.old.node_room - 1;
        } }
    {
        Node(
            self.nodes.insert_reserved(NodeRecord {
                value: v,
                list: None,
                prev: None,
                next: None,
            }),
        )
    }

    /// Puts a node at the end of a list.
    pub fn push_back(&mut self, l: ListId, n: Node)
        requires there { IsSome (value_at self.old n) }
        requires loose { list_of self.old.lists n ≡ None }
        requires made { l < length self.old.lists }
        ensures pushed { self.new ≡ record self.old { lists = with_last self.old.lists l n } }
    {
        self.push(Side::After, l, n);
    }

    /// Puts a node at the front of a list.
    pub fn push_front(&mut self, l: ListId, n: Node)
        requires there { IsSome (value_at self.old n) }
        requires loose { list_of self.old.lists n ≡ None }
        requires made { l < length self.old.lists }
        ensures pushed { self.new ≡ record self.old { lists = with_first self.old.lists l n } }
    {
        self.push(Side::Before, l, n);
    }

    // Puts a node at one end of a list.
    fn push(&mut self, side: Side, l: ListId, n: Node)
        requires there { IsSome (value_at self.old n) }
        requires loose { list_of self.old.lists n ≡ None }
        requires made { l < length self.old.lists }
        ensures pushed { self.new ≡ record self.old { lists = with_end side self.old.lists l n } }
    {
        let gap = end_gap(side, self.ends[l.0]);
        put(&mut self.nodes, self.ends.as_mut_slice(), l, n, gap);
    }

    /// Puts the node `n` right before `at`, into the same list.
    pub fn insert_before(&mut self, at: Node, n: Node)
        requires there { IsSome (value_at self.old n) }
        requires loose { list_of self.old.lists n ≡ None }
        requires linked { IsSome (list_of self.old.lists at) }
        ensures inserted { self.new ≡ record self.old { lists = map (put_before at n) self.old.lists } }
    {
        self.insert(Side::Before, at, n);
    }

    /// Puts the node `n` right after `at`, into the same list.
    pub fn insert_after(&mut self, at: Node, n: Node)
        requires there { IsSome (value_at self.old n) }
        requires loose { list_of self.old.lists n ≡ None }
        requires linked { IsSome (list_of self.old.lists at) }
        ensures inserted { self.new ≡ record self.old { lists = map (put_after at n) self.old.lists } }
    {
        self.insert(Side::After, at, n);
    }

    // Puts the node `n` right beside `at`, into the same list.
    fn insert(&mut self, side: Side, at: Node, n: Node)
        requires there { IsSome (value_at self.old n) }
        requires loose { list_of self.old.lists n ≡ None }
        requires linked { IsSome (list_of self.old.lists at) }
        ensures inserted { self.new ≡ record self.old { lists = map (put_beside side at n) self.old.lists } }
    {
        if let Some(list) = self.list_of(at) {
            let gap = gap_beside(side, at, self.prev(at), self.next(at));
            put(&mut self.nodes, self.ends.as_mut_slice(), list, n, gap);
        }
    }

    /// Removes a node from its list. The node stays, with its value, in no list.
    pub fn unlink(&mut self, n: Node)
        requires linked { IsSome (list_of self.old.lists n) }
        ensures unlinked { self.new ≡ record self.old { lists = map (without n) self.old.lists } }
    {
        if let Some(list) = self.list_of(n) {
            let gap = Gap {
                from: self.prev(n),
                to: self.next(n),
            };
            remove(&mut self.nodes, self.ends.as_mut_slice(), list, n, gap);
        }
    }

    /// The node after this one in its list.
    #[tactic(auto, using(crate::proofs::FieldLemmas::next_seen))]
    pub fn next(&self, n: Node) -> Option<Node>
        ensures node { result ≡ next_of self.now.lists n }
        ensures valid { IsValid self.now }
    {
        self.nodes.get(n.0)?.next
    }

    /// The node before this one in its list.
    #[tactic(auto, using(crate::proofs::FieldLemmas::prev_seen))]
    pub fn prev(&self, n: Node) -> Option<Node>
        ensures node { result ≡ prev_of self.now.lists n }
        ensures valid { IsValid self.now }
    {
        self.nodes.get(n.0)?.prev
    }

    /// The first node of a list. A list that was not made has none.
    #[tactic(auto, using(crate::proofs::FieldLemmas::first_seen))]
    pub fn first(&self, l: ListId) -> Option<Node>
        ensures node { result ≡ slice_get (nodes_of self.now.lists l) 0 }
        ensures valid { IsValid self.now }
    {
        self.ends.get(l.0)?.first
    }

    /// The list that a node is in.
    #[tactic(auto, using(crate::proofs::FieldLemmas::list_seen))]
    pub fn list_of(&self, n: Node) -> Option<ListId>
        ensures list { result ≡ list_of self.now.lists n }
        ensures valid { IsValid self.now }
    {
        self.nodes.get(n.0)?.list
    }

    /// The value of a node that is there, in a list or in none.
    pub fn value(&self, n: Node) -> Option<&T>
        ensures value { option_copied result ≡ value_at self.now n }
        ensures valid { IsValid self.now }
    {
        self.nodes.get(n.0).map(|entry| &entry.value)
    }

    /// Lets a node go that is in no list, and gives its value. `None` comes exactly if there is
    /// no such node or it is in a list.
    pub fn free(&mut self, n: Node) -> Option<T>
        ensures value { result ≡ loose_value self.old n }
        ensures freed { OnSome result (self.new ≡ without_node self.old n) }
        ensures refused { IfNone result (self.new ≡ self.old) }
    {
        if self.list_of(n).is_some() {
            return None;
        }
        let entry = self.nodes.try_remove(n.0)?;
        Some(entry.value)
    }
}

// Makes room for more nodes. A slab that has the room is left alone.
fn reserve_nodes<T>(nodes: &mut Slab<NodeRecord<T>>, more: usize) -> Result<(), NoMemory>
    ensures kept { nodes.new ≡ record nodes.old { capacity = nodes.new.capacity } }
    ensures grown { nodes.old.capacity ≤ nodes.new.capacity }
    ensures fits { OnOk result (more ≤ nodes.new.capacity - slab_len nodes.new) }
    ensures enough { more ≤ nodes.old.capacity - slab_len nodes.old → IsOk result }
    ensures had { more ≤ nodes.old.capacity - slab_len nodes.old → nodes.new.capacity ≡ nodes.old.capacity }
{
    if more <= nodes.capacity() - nodes.len() {
        return Ok(());
    }
    nodes.reserve(more)
}

// Makes room for more lists. A vector that has the room is left alone.
fn reserve_lists(ends: &mut Vec<Ends>, more: usize) -> Result<(), NoMemory>
    ensures items { ends.new.items ≡ ends.old.items }
    ensures len { vec_len ends.new ≡ vec_len ends.old }
    ensures grown { vec_capacity ends.old ≤ vec_capacity ends.new }
    ensures fits { OnOk result (more ≤ vec_capacity ends.new - vec_len ends.new) }
    ensures enough { more ≤ vec_capacity ends.old - vec_len ends.old → IsOk result }
    ensures had { more ≤ vec_capacity ends.old - vec_len ends.old → vec_capacity ends.new ≡ vec_capacity ends.old }
    ensures refused { OnErr result (vec_capacity ends.new ≡ vec_capacity ends.old) }
{
    if more <= ends.capacity() - ends.len() {
        return Ok(());
    }
    ends.reserve(more)
}
