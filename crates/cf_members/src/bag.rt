//! The rows of a bag.
ghost use Rattle.std.specs.Prelude.{◌≡◌, ◌+◌, ◌≤◌, ◌<◌, [], ◌∷◌, is_some, length, not, slice_get, IsOk, OnOk, OnErr};
ghost use Rattle.std.specs.Map.{lookup, lookup_entry, lookup_key};
ghost use Rattle.std.specs.Option.{option_map};
ghost use Rattle.cf_basichash.specs.Members.{most_of_one, rows_set, rows_without};
ghost use Rattle.cf_contents.specs.Contents.{greatest, numbered_row, present};
ghost use Rattle.cf_contents.specs.Deeds.{if_last, row_in_bag, rows_with_one_more};
ghost use Rattle.cf_contents.specs.Keys.{equal_to};
ghost use Rattle.cf_members.specs.Views.{is_first, member_gone};
ghost use Rattle.cf_types.specs.declared.cells.Cell.{Cell};

use crate::callbacks::{callbacks_of, id_of};
use cf_ids::ObjId;
use cf_set_bag::{Bag, BagAdd, BagRemove};
use cf_types::{Cell, CellCallbacks};
use std::alloc::{AllocError as NoMemory, Global};
use std::marker::Model;

/// The rows of a bag. Contracts see whether it is plain, the members in order of insertion, each with how often it is
/// there, and how many more rows come in without memory.
#[derive(Drop)]
pub struct MemberBag {
    plain: bool,
    rows: Bag<Cell, CellCallbacks>,
}

impl Model for MemberBag {
    ghost use Rattle.std.specs.Prelude.{◌≡◌};
    ghost use Rattle.cf_contents.specs.Contents.{callbacks_of};
    ghost use Rattle.cf_members.specs.Views.{BagView};

    ghost Value = { BagView };

    ghost view = { λ b. record { plain = b.plain; rows = b.rows.rows; room = b.rows.room } };

    ghost invariant = { λ b. b.rows.callbacks ≡ callbacks_of b.plain };
}

impl MemberBag {
    /// No members. It takes no memory.
    pub fn new(alloc: Global, plain: bool) -> MemberBag
        ensures { result ≡ record { plain = plain; rows = []; room = 0 } }
    {
        MemberBag {
            plain,
            rows: Bag::new(alloc, callbacks_of(plain)),
        }
    }

    /// Makes room for at least `more` further rows.
    pub fn reserve(&mut self, more: usize) -> Result<(), NoMemory>
        ensures plain { self.new.plain ≡ self.old.plain }
        ensures rows { self.new.rows ≡ self.old.rows }
        ensures room { OnOk result (more ≤ self.new.room) }
        ensures kept { self.old.room ≤ self.new.room }

        // It can be refused only if the room was missing.
        ensures enough { more ≤ self.old.room → IsOk result }
        ensures refused { OnErr result (self.new ≡ self.old) }
    {
        self.rows.reserve(more)
    }

    /// Whether the bag is plain.
    pub fn plain(&self) -> bool
        ensures { result ≡ self.now.plain }
    {
        self.plain
    }

    /// How many rows there are.
    pub fn count(&self) -> usize
        ensures { result ≡ length self.now.rows }
    {
        self.rows.count()
    }

    /// The member at a place in order of insertion and how often it is there, or `None` if the place is not below the
    /// count.
    pub fn row(&self, i: usize) -> Option<(ObjId, u32)>
        ensures { result ≡ option_map numbered_row (slice_get self.now.rows i) }
    {
        match self.rows.at(i) {
            Some((member, number)) => Some((member.id, number)),
            None => None,
        }
    }

    /// The member that is equal to an element and how often it is there, or `None` if there is none.
    pub fn find(&self, element: &Cell) -> Option<(ObjId, u32)>
        ensures { result ≡ row_in_bag self.now.plain self.now.rows element.now }
    {
        match self.rows.find(element) {
            Some(member) => Some((member.id, self.rows.count_of(element))),
            None => None,
        }
    }

    /// Counts one more of the member that is equal to an element, or adds the element once after the last, and tells
    /// whether it did that.
    pub fn add(&mut self, element: Cell) -> bool
        requires room { 0 < self.old.room }
        requires few { greatest self.old.rows < most_of_one }
        ensures added { result ≡ not (is_some (lookup (equal_to self.old.plain element) self.old.rows)) }
        ensures plain { self.new.plain ≡ self.old.plain }
        ensures rows { let test = equal_to self.old.plain element in
            self.new.rows ≡ rows_with_one_more test self.old.rows element (lookup test self.old.rows) }
    {
        is_first(self.rows.add(element))
    }

    /// Puts an element in place of the member that is equal to it, with that one's number, and gives that one, or adds
    /// it once after the last.
    pub fn set(&mut self, element: Cell) -> Option<ObjId>
        requires { 0 < self.old.room }
        ensures old { let found = lookup_key (equal_to self.old.plain element) self.old.rows in
            result ≡ option_map (λ (cell : Cell). cell.id) found }
        ensures plain { self.new.plain ≡ self.old.plain }
        ensures rows { self.new.rows ≡ rows_set (equal_to self.old.plain element) self.old.rows element }
    {
        id_of(self.rows.set(element))
    }

    /// Counts one less of the member that is equal to an element, and takes it out and gives it if none is left.
    pub fn remove(&mut self, element: &Cell) -> Option<ObjId>
        ensures out { let found = lookup_entry (equal_to self.old.plain element.now) self.old.rows in
            present (result ∷ []) ≡ if_last found }
        ensures plain { self.new.plain ≡ self.old.plain }
        ensures rows { self.new.rows ≡ rows_without (equal_to self.old.plain element.now) self.old.rows }
    {
        member_gone(self.rows.remove(element))
    }
}

/// Whether an add took an element in.
fn is_first(answer: BagAdd<Cell>) -> bool
    ensures { result ≡ is_first answer }
{
    match answer {
        BagAdd::First => true,
        BagAdd::More(_) | BagAdd::Full(_) => false,
    }
}

/// The member that a removal took out, if it took one out.
fn member_gone(answer: BagRemove<Cell>) -> Option<ObjId>
    ensures { result ≡ member_gone answer }
{
    match answer {
        BagRemove::Absent | BagRemove::Less => None,
        BagRemove::Gone(member) => Some(member.id),
    }
}
