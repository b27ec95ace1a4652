//! Dictionaries, and the calls on them.
ghost use Rattle.std.specs.Prelude.{◌≡◌, ◌+◌, ◌≤◌, ◌<◌, ◌↔◌, [], ◌∷◌, ◌++◌, length, slice_get, IsOk, IsNone, OnOk, OnErr, IfErr, IfNone, OnSome, is_some, if◌then◌else◌};
ghost use Rattle.std.specs.List.{IsDistinct};
ghost use Rattle.std.specs.Map.{keys_of, lookup, lookup_entry, remove_entry, set_value};
ghost use Rattle.std.specs.Option.{option_copied, option_map, ok_or};
ghost use Rattle.cf_basichash.specs.Tables.{pairs_with};
ghost use Rattle.cf_dictionary.specs.Dictionaries.{set_answer};

use cf_basichash::Rows;
use cf_callbacks::Callbacks;
use std::alloc::{AllocError as NoMemory, Global};
use std::marker::Model;

/// What a set did.
#[derive(Drop)]
pub enum DictSet<E> {
    /// The key was absent, and the pair is there now.
    Added,
    /// An equal key was there and stays: the key that was not used, and the value that was replaced.
    Changed {
        /// The key that was handed in and not used.
        key: E,
        /// The value that was replaced.
        old: E,
    },
}

/// A list of pairs, each a key and a value, no two of which have equal keys.
#[derive(Drop)]
pub struct Dict<E, C: Callbacks<E>> {
    rows: Rows<E, E, C>,
}

impl<E, C: Callbacks<E>> Model for Dict<E, C> {
    ghost use Rattle.cf_basichash.specs.Tables.{Table};

    ghost Value = { Table E E C };

    ghost view = { λ d. d.rows };
}

impl<E, C: Callbacks<E>> Dict<E, C> {
    /// No pairs and no room; takes no memory.
    pub fn new(alloc: Global, c: C) -> Dict<E, C>
        ensures { result ≡ record { rows = []; room = 0; callbacks = c } }
    {
        Dict {
            rows: Rows::new(alloc, c),
        }
    }

    /// Makes room for at least `more` further pairs. `NoMemory` comes only if the room was less, and changes
    /// nothing.
    pub fn reserve(&mut self, more: usize) -> Result<(), NoMemory>
        ensures rows { self.new.rows ≡ self.old.rows }
        ensures callbacks { self.new.callbacks ≡ self.old.callbacks }
        ensures room { OnOk result (more ≤ self.new.room) }
        ensures kept { self.old.room ≤ self.new.room }

        // It can be refused only if the room was missing.
        ensures enough { more ≤ self.old.room → IsOk result }
        ensures err { OnErr result (self.new ≡ self.old) }
    {
        self.rows.reserve(more)
    }

    /// How many pairs there are.
    pub fn count(&self) -> usize
        ensures count { result ≡ length self.now.rows }
        ensures distinct { IsDistinct (C.same self.now.callbacks) (keys_of self.now.rows) }
    {
        self.rows.count()
    }

    /// The pair at a place in order of insertion, or `None` if the place is not below the count.
    pub fn row(&self, i: usize) -> Option<(&E, &E)>
        ensures { option_map (λ row. (row.0.now, row.1.now)) result ≡ slice_get self.now.rows i }
    {
        self.rows.row(i)
    }

    /// The value of the key that is equal to `k`, or `None` if there is none.
    pub fn get(&self, k: &E) -> Option<&E>
        ensures { option_copied result ≡ lookup (C.same self.now.callbacks k.now) self.now.rows }
    {
        let place = self.rows.find(k)?;
        let (_, value) = self.rows.row(place)?;
        Some(value)
    }

    /// Adds a pair after the last one, in the room that is there, which becomes less by 1. Key and value come back
    /// exactly if an equal key is present, and then nothing changes.
    pub fn add(&mut self, k: E, v: E) -> Result<(), (E, E)>
        requires { 0 < self.old.room }
        ensures absent { IsOk result ↔ IsNone (lookup (C.same self.old.callbacks k) self.old.rows) }
        ensures rows { OnOk result (self.new.rows ≡ self.old.rows ++ (k, v) ∷ []) }
        ensures room { OnOk result (self.new.room + 1 ≡ self.old.room) }
        ensures callbacks { OnOk result (self.new.callbacks ≡ self.old.callbacks) }
        ensures err { OnErr result (self.new ≡ self.old) }
        ensures returned { IfErr result (λ back. back ≡ (k, v)) }
    {
        self.rows.add(k, v)
    }

    /// Lets `v` be the value of the key that is equal to `k`, or adds the pair if there is none. A key that is there
    /// stays. The room becomes less by 1 if a pair is added, and else stays.
    pub fn set(&mut self, k: E, v: E) -> DictSet<E>
        requires { 0 < self.old.room }
        ensures answer { result ≡ set_answer k (lookup (C.same self.old.callbacks k) self.old.rows) }
        ensures rows { self.new.rows ≡ pairs_with (C.same self.old.callbacks k) self.old.rows k v }
        ensures room { let there = is_some (lookup (C.same self.old.callbacks k) self.old.rows) in
            self.new.room + (if there then 0 else 1) ≡ self.old.room }
        ensures callbacks { self.new.callbacks ≡ self.old.callbacks }
    {
        match self.rows.find(&k) {
            Some(place) => {
                let old = self.rows.swap_value(place, v);
                DictSet::Changed { key: k, old }
            }
            None => {
                self.rows.add(k, v).unwrap();
                DictSet::Added
            }
        }
    }

    /// Lets `v` be the value of the key that is equal to `k` and gives the value before, or gives `v` back if there
    /// is none. The room stays.
    pub fn replace(&mut self, k: &E, v: E) -> Result<E, E>
        ensures answer { result ≡ ok_or (lookup (C.same self.old.callbacks k.now) self.old.rows) v }
        ensures rows { let rows = set_value (C.same self.old.callbacks k.now) self.old.rows v in
            self.new ≡ record self.old { rows = rows } }
    {
        match self.rows.find(k) {
            Some(place) => Ok(self.rows.swap_value(place, v)),
            None => Err(v),
        }
    }

    /// Takes out the pair whose key is equal to `k`, and those after it move down; the room becomes more by 1. `None`
    /// comes exactly if there is none, and then nothing changes.
    pub fn remove(&mut self, k: &E) -> Option<(E, E)>
        ensures answer { result ≡ lookup_entry (C.same self.old.callbacks k.now) self.old.rows }
        ensures rows { self.new.rows ≡ remove_entry (C.same self.old.callbacks k.now) self.old.rows }
        ensures room { OnSome result (self.new.room ≡ self.old.room + 1) }
        ensures callbacks { self.new.callbacks ≡ self.old.callbacks }
        ensures none { IfNone result (self.new ≡ self.old) }
    {
        let place = self.rows.find(k)?;
        self.rows.remove(place)
    }
}
