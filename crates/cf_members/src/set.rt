//! The members of a set.
ghost use Rattle.std.specs.Prelude.{◌≡◌, ◌+◌, ◌≤◌, ◌<◌, [], find, length, not, slice_get, is_ok, IsOk, OnOk, OnErr};
ghost use Rattle.std.specs.List.{list_any};
ghost use Rattle.std.specs.Option.{option_map};
ghost use Rattle.cf_basichash.specs.Members.{members_set, members_with, members_without};
ghost use Rattle.cf_contents.specs.Deeds.{row_in_set};
ghost use Rattle.cf_contents.specs.Keys.{equal_to};
ghost use Rattle.cf_types.specs.declared.cells.Cell.{Cell};

use crate::callbacks::{callbacks_of, id_at, id_of};
use cf_ids::ObjId;
use cf_set_bag::Set;
use cf_types::{Cell, CellCallbacks};
use std::alloc::{AllocError as NoMemory, Global};
use std::marker::Model;

/// The members of a set. Contracts see whether it is plain, the members in order of insertion, and how many more
/// come in without memory.
#[derive(Drop)]
pub struct MemberSet {
    plain: bool,
    members: Set<Cell, CellCallbacks>,
}

impl Model for MemberSet {
    ghost use Rattle.std.specs.Prelude.{◌≡◌};
    ghost use Rattle.cf_contents.specs.Contents.{callbacks_of};
    ghost use Rattle.cf_members.specs.Views.{SetView};

    ghost Value = { SetView };

    ghost view = { λ s. record { plain = s.plain; members = s.members.members; room = s.members.room } };

    ghost invariant = { λ s. s.members.callbacks ≡ callbacks_of s.plain };
}

impl MemberSet {
    /// No members. It takes no memory.
    pub fn new(alloc: Global, plain: bool) -> MemberSet
        ensures { result ≡ record { plain = plain; members = []; room = 0 } }
    {
        MemberSet {
            plain,
            members: Set::new(alloc, callbacks_of(plain)),
        }
    }

    /// Makes room for at least `more` further members.
    pub fn reserve(&mut self, more: usize) -> Result<(), NoMemory>
        ensures plain { self.new.plain ≡ self.old.plain }
        ensures members { self.new.members ≡ self.old.members }
        ensures room { OnOk result (more ≤ self.new.room) }
        ensures kept { self.old.room ≤ self.new.room }

        // It can be refused only if the room was missing.
        ensures enough { more ≤ self.old.room → IsOk result }
        ensures refused { OnErr result (self.new ≡ self.old) }
    {
        self.members.reserve(more)
    }

    /// Whether the set is plain.
    pub fn plain(&self) -> bool
        ensures { result ≡ self.now.plain }
    {
        self.plain
    }

    /// How many members there are.
    pub fn count(&self) -> usize
        ensures { result ≡ length self.now.members }
    {
        self.members.count()
    }

    /// The member at a place in order of insertion, or `None` if the place is not below the count.
    pub fn at(&self, i: usize) -> Option<ObjId>
        ensures { result ≡ option_map (λ (cell : Cell). cell.id) (slice_get self.now.members i) }
    {
        id_at(self.members.at(i))
    }

    /// The member that is equal to an element and how often it is there, which is once, or `None` if there is none.
    pub fn find(&self, element: &Cell) -> Option<(ObjId, u32)>
        ensures { result ≡ row_in_set self.now.plain self.now.members element.now }
    {
        match self.members.find(element) {
            Some(member) => Some((member.id, 1)),
            None => None,
        }
    }

    /// Adds an element after the last member, if none is equal to it, and tells whether it did.
    pub fn add(&mut self, element: Cell) -> bool
        requires { 0 < self.old.room }
        ensures added { result ≡ not (list_any (equal_to self.old.plain element) self.old.members) }
        ensures plain { self.new.plain ≡ self.old.plain }
        ensures members { self.new.members ≡ members_with (equal_to self.old.plain element) self.old.members element }
    {
        is_added(self.members.add(element))
    }

    /// Puts an element in place of the member that is equal to it and gives that one, or adds it after the last.
    pub fn set(&mut self, element: Cell) -> Option<ObjId>
        requires { 0 < self.old.room }
        ensures old { let found = find (equal_to self.old.plain element) self.old.members in
            result ≡ option_map (λ (cell : Cell). cell.id) found }
        ensures plain { self.new.plain ≡ self.old.plain }
        ensures members { self.new.members ≡ members_set (equal_to self.old.plain element) self.old.members element }
    {
        id_of(self.members.set(element))
    }

    /// Takes out the member that is equal to an element, and gives it, or `None` if there is none.
    pub fn remove(&mut self, element: &Cell) -> Option<ObjId>
        ensures out { let found = find (equal_to self.old.plain element.now) self.old.members in
            result ≡ option_map (λ (cell : Cell). cell.id) found }
        ensures plain { self.new.plain ≡ self.old.plain }
        ensures members { self.new.members ≡ members_without (equal_to self.old.plain element.now) self.old.members }
    {
        id_of(self.members.remove(element))
    }
}

/// Whether an add added the element.
fn is_added(answer: Result<(), Cell>) -> bool
    ensures { result ≡ is_ok answer }
{
    match answer {
        Ok(()) => true,
        Err(_) => false,
    }
}
