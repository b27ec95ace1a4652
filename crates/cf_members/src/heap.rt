//! The elements of a heap.
ghost use Rattle.std.specs.Prelude.{◌≡◌, ◌+◌, ◌^◌, ◌≤◌, ◌<◌, [], ◌∷◌, ◌++◌, length, slice_get, IsOk, OnOk, OnErr};
ghost use Rattle.std.specs.Option.{option_map};
ghost use Rattle.cf_binheap.specs.Heaps.{by_element};
ghost use Rattle.cf_types.specs.Cells.{cell_order};
ghost use Rattle.cf_callbacks.specs.Ranking.{by_rank, least, without_least};
ghost use Rattle.cf_contents.specs.Contents.{id_in_row, least_of, order_of};

use crate::callbacks::{callbacks_of, id_at, id_of};
use cf_binheap::Heap;
use cf_callbacks::Steps;
use cf_ids::ObjId;
use cf_types::{Cell, CellCallbacks};
use std::alloc::{AllocError as NoMemory, Global};
use std::marker::{Brand, Model};
use std::sync::ledger::{Blank, Ledger};

/// The elements of a heap. Contracts see whether it is plain, how many were added, those that are gone too, the
/// elements in order of arrival, each with how many were added before it, and how many more come in without memory.
#[derive(Drop)]
pub struct ElementHeap {
    plain: bool,
    is_sorted: bool,
    elements: Heap<Cell, CellCallbacks>,
}

impl Model for ElementHeap {
    ghost use Rattle.cf_members.specs.Views.{HeapView, IsKept};

    ghost Value = { HeapView };

    ghost view = { λ h. record {
      plain = h.plain;
      adds = h.elements.adds;
      rows = h.elements.rows;
      room = h.elements.room;
    } };

    ghost invariant = { λ h. IsKept h.plain h.is_sorted h.elements };
}

impl ElementHeap {
    /// No elements. It takes no memory.
    pub fn new(alloc: Global, plain: bool) -> ElementHeap
        ensures { result ≡ record { plain = plain; adds = 0; rows = []; room = 0 } }
    {
        ElementHeap {
            plain,
            is_sorted: false,
            elements: Heap::new(alloc, callbacks_of(plain)),
        }
    }

    /// Makes room for at least `more` further elements.
    pub fn reserve(&mut self, more: usize) -> Result<(), NoMemory>
        ensures plain { self.new.plain ≡ self.old.plain }
        ensures adds { self.new.adds ≡ self.old.adds }
        ensures rows { self.new.rows ≡ self.old.rows }
        ensures room { OnOk result (more ≤ self.new.room) }
        ensures kept { self.old.room ≤ self.new.room }

        // It can be refused only if the room was missing.
        ensures enough { more ≤ self.old.room → IsOk result }
        ensures refused { OnErr result (self.new ≡ self.old) }
    {
        self.elements.reserve(more)
    }

    /// Whether the heap is plain.
    pub fn plain(&self) -> bool
        ensures { result ≡ self.now.plain }
    {
        self.plain
    }

    /// How many elements there are.
    pub fn count(&self) -> usize
        ensures { result ≡ length self.now.rows }
    {
        self.elements.count()
    }

    /// The least element, of equal ones the one that was added first, or `None` if there is none.
    pub fn least(&self) -> Option<ObjId>
        ensures { result ≡ least_of self.now.plain self.now.rows }
    {
        id_at(self.elements.minimum())
    }

    /// Adds an element.
    pub fn add(&mut self, element: Cell)
        requires room { 0 < self.old.room }
        requires adds { self.old.adds + 1 < 2 ^ 64 }
        ensures plain { self.new.plain ≡ self.old.plain }
        ensures adds { self.new.adds ≡ self.old.adds + 1 }
        ensures rows { self.new.rows ≡ self.old.rows ++ (element, self.old.adds) ∷ [] }
    {
        self.is_sorted = false;
        add::<Brand>(&mut self.elements, element, Blank::new(1));
    }

    /// Takes out the least element, of equal ones the one that was added first, and gives it, or `None` if there is
    /// none.
    pub fn remove_least(&mut self) -> Option<ObjId>
        ensures out { result ≡ least_of self.old.plain self.old.rows }
        ensures plain { self.new.plain ≡ self.old.plain }
        ensures adds { self.new.adds ≡ self.old.adds }
        ensures rows { self.new.rows ≡ without_least (order_of self.old.plain) self.old.rows }
    {
        self.is_sorted = false;
        id_of(remove_minimum::<Brand>(&mut self.elements, Blank::new(1)))
    }

    /// Arranges the elements by rising value, equal ones in order of arrival, so that the element at a place in this
    /// order is found at once. It takes no memory.
    pub fn sort(&mut self)
        ensures { self.new ≡ self.old }
    {
        if !self.is_sorted {
            sort::<Brand>(&mut self.elements, Blank::new(1));
            self.is_sorted = true;
        }
    }

    /// The element that goes out after `k` others, or `None` if there are no more than `k`.
    pub fn at_turn(&self, k: usize) -> Option<ObjId>
        ensures { result ≡ option_map id_in_row (slice_get (by_rank (order_of self.now.plain) self.now.rows) k) }
    {
        let is_sorted = self.is_sorted;
        if is_sorted {
            return id_at(self.elements.at(k));
        }
        id_at_turn::<Brand>(&self.elements, k, Blank::new(1))
    }
}

/// Adds an element, with a counter of its own.
fn add<L: Ledger>(elements: &mut Heap<Cell, CellCallbacks>, element: Cell, blank: Blank)
    requires name { blank.name ≡ L.name }
    requires parts { blank.parts ≡ L.parts }
    requires some { 0 < blank.parts }
    requires room { 0 < elements.old.room }
    requires adds { elements.old.adds + 1 < 2 ^ 64 }
    ensures rows { elements.new.rows ≡ elements.old.rows ++ (element, elements.old.adds) ∷ [] }
    ensures adds { elements.new.adds ≡ elements.old.adds + 1 }
    ensures callbacks { elements.new.callbacks ≡ elements.old.callbacks }
{
    let mut steps = Steps::<L>::new(blank);
    elements.add(element, &mut steps);
}

/// Takes out the least element, with a counter of its own.
fn remove_minimum<L: Ledger>(elements: &mut Heap<Cell, CellCallbacks>, blank: Blank) -> Option<Cell>
    requires name { blank.name ≡ L.name }
    requires parts { blank.parts ≡ L.parts }
    requires some { 0 < blank.parts }
    ensures answer { result ≡ option_map (λ row. row.0) (least (by_element (cell_order elements.old.callbacks)) elements.old.rows) }
    ensures rows { elements.new.rows ≡ without_least (by_element (cell_order elements.old.callbacks)) elements.old.rows }
    ensures adds { elements.new.adds ≡ elements.old.adds }
    ensures callbacks { elements.new.callbacks ≡ elements.old.callbacks }
{
    let mut steps = Steps::<L>::new(blank);
    elements.remove_minimum(&mut steps)
}

/// Arranges the elements in the order in which they go out, with a counter of its own.
fn sort<L: Ledger>(elements: &mut Heap<Cell, CellCallbacks>, blank: Blank)
    requires name { blank.name ≡ L.name }
    requires parts { blank.parts ≡ L.parts }
    requires some { 0 < blank.parts }
    ensures { elements.new ≡ record elements.old {
      slots = by_rank (by_element (cell_order elements.old.callbacks)) elements.old.rows;
    } }
{
    let mut steps = Steps::<L>::new(blank);
    elements.sort(&mut steps);
}

/// The element that goes out after `k` others, with a counter of its own.
fn id_at_turn<L: Ledger>(
    elements: &Heap<Cell, CellCallbacks>,
    k: usize,
    blank: Blank,
) -> Option<ObjId>
    requires name { blank.name ≡ L.name }
    requires parts { blank.parts ≡ L.parts }
    requires some { 0 < blank.parts }
    ensures { let sorted = by_rank (by_element (cell_order elements.now.callbacks)) elements.now.rows in
        result ≡ option_map id_in_row (slice_get sorted k) }
{
    let mut steps = Steps::<L>::new(blank);
    id_at(elements.at_turn(k, &mut steps))
}
