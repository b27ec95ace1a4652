//! Sets, and the calls on them.
ghost use Rattle.std.specs.Prelude.{◌≡◌, ◌+◌, ◌≤◌, ◌<◌, ◌↔◌, [], ◌∷◌, ◌++◌, length, slice_get, find, is_some, IsOk, IsNone, OnOk, OnErr, IfErr, IfNone, OnSome, if◌then◌else◌};
ghost use Rattle.std.specs.List.{IsDistinct};
ghost use Rattle.std.specs.Option.{option_copied, ok_or};
ghost use Rattle.cf_basichash.specs.Members.{members_replaced, members_set, members_without};

use crate::rows::{remove_row, replace_member, row_of, set_member};
use cf_basichash::Rows;
use cf_callbacks::Callbacks;
use std::alloc::{AllocError as NoMemory, Global};
use std::marker::Model;

/// A list of members, no two of which are equal.
#[derive(Drop)]
pub struct Set<E, C: Callbacks<E>> {
    rows: Rows<E, (), C>,
}

impl<E, C: Callbacks<E>> Model for Set<E, C> {
    ghost use Rattle.std.specs.Map.{keys_of};
    ghost use Rattle.cf_set_bag.specs.Sets.{Members};

    ghost Value = { Members E C };

    ghost view = { λ s. record {
      members = keys_of s.rows.rows;
      room = s.rows.room;
      callbacks = s.rows.callbacks;
    } };
}

impl<E, C: Callbacks<E>> Set<E, C> {
    /// No members and no room; takes no memory.
    pub fn new(alloc: Global, c: C) -> Set<E, C>
        ensures { result ≡ record { members = []; room = 0; callbacks = c } }
    {
        Set {
            rows: Rows::new(alloc, c),
        }
    }

    /// Makes room for at least `more` further members. `NoMemory` comes only if the room was less, and changes
    /// nothing.
    pub fn reserve(&mut self, more: usize) -> Result<(), NoMemory>
        ensures members { self.new.members ≡ self.old.members }
        ensures callbacks { self.new.callbacks ≡ self.old.callbacks }
        ensures room { OnOk result (more ≤ self.new.room) }
        ensures kept { self.old.room ≤ self.new.room }

        // It can be refused only if the room was missing.
        ensures enough { more ≤ self.old.room → IsOk result }
        ensures err { OnErr result (self.new ≡ self.old) }
    {
        self.rows.reserve(more)
    }

    /// How many members there are.
    pub fn count(&self) -> usize
        ensures count { result ≡ length self.now.members }
        ensures distinct { IsDistinct (C.same self.now.callbacks) self.now.members }
    {
        self.rows.count()
    }

    /// The member at a place in order of insertion, or `None` if the place is not below the count.
    pub fn at(&self, i: usize) -> Option<&E>
        ensures { option_copied result ≡ slice_get self.now.members i }
    {
        match self.rows.row(i) {
            Some((member, _)) => Some(member),
            None => None,
        }
    }

    /// The member that is equal to `e`, or `None` if there is none.
    pub fn find(&self, e: &E) -> Option<&E>
        ensures { option_copied result ≡ find (C.same self.now.callbacks e.now) self.now.members }
    {
        match row_of(&self.rows, e) {
            Some((member, _)) => Some(member),
            None => None,
        }
    }

    /// Adds `e` after the last member; it comes back exactly if an equal one is present.
    pub fn add(&mut self, e: E) -> Result<(), E>
        requires { 0 < self.old.room }
        ensures absent { IsOk result ↔ IsNone (find (C.same self.old.callbacks e) self.old.members) }
        ensures members { OnOk result (self.new.members ≡ self.old.members ++ e ∷ []) }
        ensures room { OnOk result (self.new.room + 1 ≡ self.old.room) }
        ensures callbacks { OnOk result (self.new.callbacks ≡ self.old.callbacks) }
        ensures err { OnErr result (self.new ≡ self.old) }
        ensures returned { IfErr result (λ back. back ≡ e) }
    {
        match self.rows.add(e, ()) {
            Ok(()) => Ok(()),
            Err((back, ())) => Err(back),
        }
    }

    /// Puts `e` in place of the member that is equal to it and gives that one, or adds it after the
    /// last if there is none.
    pub fn set(&mut self, e: E) -> Option<E>
        requires { 0 < self.old.room }
        ensures answer { result ≡ find (C.same self.old.callbacks e) self.old.members }
        ensures members { self.new.members ≡ members_set (C.same self.old.callbacks e) self.old.members e }
        ensures room { let there = is_some (find (C.same self.old.callbacks e) self.old.members) in
            self.new.room + (if there then 0 else 1) ≡ self.old.room }
        ensures callbacks { self.new.callbacks ≡ self.old.callbacks }
    {
        set_member(&mut self.rows, e, ())
    }

    /// Puts `e` in place of the member that is equal to it and gives that one, or gives `e` back if
    /// there is none.
    pub fn replace(&mut self, e: E) -> Result<E, E>
        ensures answer { result ≡ ok_or (find (C.same self.old.callbacks e) self.old.members) e }
        ensures members { let members = members_replaced (C.same self.old.callbacks e) self.old.members e in
            self.new ≡ record self.old { members = members } }
    {
        replace_member(&mut self.rows, e)
    }

    /// Takes out the member that is equal to `e`, and those after it move down; `None` if there is
    /// none.
    pub fn remove(&mut self, e: &E) -> Option<E>
        ensures answer { result ≡ find (C.same self.old.callbacks e.now) self.old.members }
        ensures members { self.new.members ≡ members_without (C.same self.old.callbacks e.now) self.old.members }
        ensures room { OnSome result (self.new.room ≡ self.old.room + 1) }
        ensures callbacks { self.new.callbacks ≡ self.old.callbacks }
        ensures none { IfNone result (self.new ≡ self.old) }
    {
        match remove_row(&mut self.rows, e) {
            Some((member, ())) => Some(member),
            None => None,
        }
    }
}
