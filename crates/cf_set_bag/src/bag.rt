//! Bags, and the calls on them.
ghost use Rattle.std.specs.Prelude.{◌≡◌, ◌+◌, ◌≤◌, ◌<◌, [], ◌∷◌, ◌++◌, length, slice_get, is_some, IsOk, OnOk, OnErr, ◌==◌, if◌then◌else◌, unwrap_or};
ghost use Rattle.std.specs.List.{IsDistinct};
ghost use Rattle.std.specs.Map.{keys_of, lookup, lookup_key, lookup_entry, set_key};
ghost use Rattle.std.specs.Option.{option_copied, option_map, ok_or};
ghost use Rattle.cf_basichash.specs.Members.{rows_set, rows_with, rows_without};
ghost use Rattle.cf_set_bag.specs.Bags.{AllCounted, add_answer, remove_answer};

use crate::rows::{replace_member, row_of, set_member};
use cf_basichash::Rows;
use cf_callbacks::Callbacks;
use std::alloc::{AllocError as NoMemory, Global};
use std::marker::Model;

/// What an add did.
#[derive(Drop)]
pub enum BagAdd<E> {
    /// None was equal, and the member is there now, once.
    First,
    /// An equal member was there and stays, and its number rose: the one that was not taken in.
    More(E),
    /// The number of the equal member is 4,294,967,295, and nothing changed: the one that was not taken in.
    Full(E),
}

/// What a removal did.
#[derive(Drop)]
pub enum BagRemove<E> {
    /// None was equal, and nothing changed.
    Absent,
    /// The number of the equal member fell, and the member stays.
    Less,
    /// It was there once: the member, which was taken out.
    Gone(E),
}

/// A list of members, no two of which are equal, each with its number, from 1 to 4,294,967,295.
#[derive(Drop)]
pub struct Bag<E, C: Callbacks<E>> {
    rows: Rows<E, u32, C>,
}

impl<E, C: Callbacks<E>> Model for Bag<E, C> {
    ghost use Rattle.cf_basichash.specs.Tables.{Table};
    ghost use Rattle.std.specs.Prelude.{ℕ};

    ghost Value = { Table E ℕ C };

    ghost view = { λ b. b.rows };

    ghost use Rattle.cf_set_bag.specs.Bags.{AllCounted};

    ghost invariant = { λ b. AllCounted b.rows.rows };
}

impl<E, C: Callbacks<E>> Bag<E, C> {
    /// No members and no room; takes no memory.
    pub fn new(alloc: Global, c: C) -> Bag<E, C>
        ensures { result ≡ record { rows = []; room = 0; callbacks = c } }
    {
        Bag {
            rows: Rows::new(alloc, c),
        }
    }

    /// Makes room for at least `more` further rows. `NoMemory` comes only if the room was less, and changes nothing.
    pub fn reserve(&mut self, more: usize) -> Result<(), NoMemory>
        ensures rows { self.new.rows ≡ self.old.rows }
        ensures callbacks { self.new.callbacks ≡ self.old.callbacks }
        ensures room { OnOk result (more ≤ self.new.room) }
        ensures kept { self.old.room ≤ self.new.room }

        // It can be refused only if the room was missing.
        ensures enough { more ≤ self.old.room → IsOk result }
        ensures err { OnErr result (self.new ≡ self.old) }
    {
        self.rows.reserve(more)
    }

    /// How many rows there are, each a member with its number.
    pub fn count(&self) -> usize
        ensures count { result ≡ length self.now.rows }
        ensures distinct { IsDistinct (C.same self.now.callbacks) (keys_of self.now.rows) }
        ensures numbers { AllCounted self.now.rows }
    {
        self.rows.count()
    }

    /// The member and its number at a place in order of insertion, or `None` if the place is not below
    /// the count.
    pub fn at(&self, i: usize) -> Option<(&E, u32)>
        ensures { option_map (λ row. (row.0.now, row.1)) result ≡ slice_get self.now.rows i }
    {
        match self.rows.row(i) {
            Some((member, number)) => Some((member, *number)),
            None => None,
        }
    }

    /// The member that is equal to `e`, or `None` if there is none.
    pub fn find(&self, e: &E) -> Option<&E>
        ensures { option_copied result ≡ lookup_key (C.same self.now.callbacks e.now) self.now.rows }
    {
        match row_of(&self.rows, e) {
            Some((member, _)) => Some(member),
            None => None,
        }
    }

    /// The number of the member that is equal to `e`, and 0 if there is none.
    pub fn count_of(&self, e: &E) -> u32
        ensures { result ≡ unwrap_or (lookup (C.same self.now.callbacks e.now) self.now.rows) 0 }
    {
        match row_of(&self.rows, e) {
            Some((_, number)) => *number,
            None => 0,
        }
    }

    /// Counts one more of the member that is equal to `e`, which stays, or adds `e` once after the last
    /// if there is none.
    pub fn add(&mut self, e: E) -> BagAdd<E>
        requires { 0 < self.old.room }
        ensures answer { result ≡ add_answer e (lookup (C.same self.old.callbacks e) self.old.rows) }
        ensures rows { self.new.rows ≡ rows_with (C.same self.old.callbacks e) self.old.rows e }
        ensures room { let there = is_some (lookup (C.same self.old.callbacks e) self.old.rows) in
            self.new.room + (if there then 0 else 1) ≡ self.old.room }
        ensures callbacks { self.new.callbacks ≡ self.old.callbacks }
    {
        let Some(place) = self.rows.find(&e) else {
            self.rows.add(e, 1).unwrap();
            return BagAdd::First;
        };
        let number = number_at(&self.rows, place);
        if number == u32::MAX {
            return BagAdd::Full(e);
        }
        self.rows.swap_value(place, number + 1);
        BagAdd::More(e)
    }

    /// Puts `e` in place of the member that is equal to it, with that one's number, and gives that one,
    /// or adds it once after the last if there is none.
    pub fn set(&mut self, e: E) -> Option<E>
        requires { 0 < self.old.room }
        ensures answer { result ≡ lookup_key (C.same self.old.callbacks e) self.old.rows }
        ensures rows { self.new.rows ≡ rows_set (C.same self.old.callbacks e) self.old.rows e }
        ensures room { let there = is_some (lookup (C.same self.old.callbacks e) self.old.rows) in
            self.new.room + (if there then 0 else 1) ≡ self.old.room }
        ensures callbacks { self.new.callbacks ≡ self.old.callbacks }
    {
        set_member(&mut self.rows, e, 1)
    }

    /// Puts `e` in place of the member that is equal to it, with that one's number, and gives that one,
    /// or gives `e` back if there is none.
    pub fn replace(&mut self, e: E) -> Result<E, E>
        ensures answer { result ≡ ok_or (lookup_key (C.same self.old.callbacks e) self.old.rows) e }
        ensures rows { let rows = set_key (C.same self.old.callbacks e) self.old.rows e in
            self.new ≡ record self.old { rows = rows } }
    {
        replace_member(&mut self.rows, e)
    }

    /// Counts one less of the member that is equal to `e`, and takes it out with the last; then those
    /// after it move down.
    pub fn remove(&mut self, e: &E) -> BagRemove<E>
        ensures answer { result ≡ remove_answer (lookup_entry (C.same self.old.callbacks e.now) self.old.rows) }
        ensures rows { self.new.rows ≡ rows_without (C.same self.old.callbacks e.now) self.old.rows }
        ensures room { let goes = unwrap_or (lookup (C.same self.old.callbacks e.now) self.old.rows) 0 == 1 in
            self.new.room ≡ self.old.room + (if goes then 1 else 0) }
        ensures callbacks { self.new.callbacks ≡ self.old.callbacks }
    {
        let Some(place) = self.rows.find(e) else {
            return BagRemove::Absent;
        };
        let number = number_at(&self.rows, place);
        if 1 < number {
            self.rows.swap_value(place, number - 1);
            return BagRemove::Less;
        }
        match self.rows.remove(place) {
            Some((member, _)) => BagRemove::Gone(member),
            None => BagRemove::Absent,
        }
    }
}

// The number of the row at a place.
fn number_at<E, C: Callbacks<E>>(rows: &Rows<E, u32, C>, place: usize) -> u32
    requires { place < length rows.now.rows }
    ensures { option_map (λ row. row.1) (slice_get rows.now.rows place) ≡ Some result }
{
    match rows.row(place) {
        Some((_, number)) => *number,
        None => 0,
    }
}
