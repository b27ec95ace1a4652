//! Tables of rows, and the calls on them.
ghost use Rattle.std.specs.Prelude.{◌≡◌, ◌+◌, ◌≤◌, ◌<◌, ◌↔◌, true, [], ◌∷◌, ◌++◌, length, slice_get, slice_set, remove, IsOk, IsNone, OnOk, OnErr, IfErr, IfSome, IfNone, OnSome};
ghost use Rattle.std.specs.List.{IsDistinct};
ghost use Rattle.std.specs.Map.{keys_of};
ghost use Rattle.std.specs.Option.{ForSome, option_map};
ghost use Rattle.cf_basichash.specs.Tables.{place_of, IsOfKeys};

use crate::index::Index;
use cf_callbacks::Callbacks;
use std::alloc::{AllocError as NoMemory, Global};
use std::marker::Model;
use std::mem;

/// A list of rows, each a key and a value, no two of which have equal keys. An index beside it leads from a key's hash
/// to its row.
#[derive(Drop)]
pub struct Rows<K, V, C: Callbacks<K>> {
    rows: Vec<(K, V)>,
    index: Index,
    callbacks: C,
}

impl<K, V, C: Callbacks<K>> Model for Rows<K, V, C> {
    ghost use Rattle.std.specs.Prelude.{vec_capacity};
    ghost use Rattle.cf_basichash.specs.Tables.{Table, IsTable};

    ghost Value = { Table K V C };

    ghost view = { λ t. record {
      rows = t.rows.items;
      room = t.index.room;
      callbacks = t.callbacks;
    } };

    ghost invariant = { λ t.
        IsTable (C.same t.callbacks) (C.hash_of t.callbacks) t.rows.items t.index (vec_capacity t.rows) };
}

impl<K, V, C: Callbacks<K>> Rows<K, V, C> {
    /// No rows and no room; takes no memory.
    pub fn new(alloc: Global, c: C) -> Rows<K, V, C>
        ensures { result ≡ record { rows = []; room = 0; callbacks = c } }
    {
        Rows {
            rows: Vec::new(alloc),
            index: Index::new(alloc),
            callbacks: c,
        }
    }

    /// Makes room for at least `more` further rows. `NoMemory` comes only if the room was less, and changes
    /// nothing.
    pub fn reserve(&mut self, more: usize) -> Result<(), NoMemory>
        ensures rows { self.new.rows ≡ self.old.rows }
        ensures callbacks { self.new.callbacks ≡ self.old.callbacks }
        ensures room { OnOk result (more ≤ self.new.room) }
        ensures kept { self.old.room ≤ self.new.room }

        // It can be refused only if the room was missing.
        ensures enough { more ≤ self.old.room → IsOk result }
        ensures err { OnErr result (self.new ≡ self.old) }
    {
        if more <= self.index.room() {
            return Ok(());
        }
        self.rows.reserve(more)?;
        self.index.reserve(more)
    }

    /// How many rows there are.
    pub fn count(&self) -> usize
        ensures count { result ≡ length self.now.rows }
        ensures distinct { IsDistinct (C.same self.now.callbacks) (keys_of self.now.rows) }
    {
        self.rows.len()
    }

    /// The place of the row whose key is equal to `k`, or `None` if there is none.
    pub fn find(&self, k: &K) -> Option<usize>
        ensures { result ≡ place_of (C.same self.now.callbacks k.now) self.now.rows }
    {
        let hash = self.callbacks.hash(k);
        seek(&self.rows, &self.index, &self.callbacks, k, hash)
    }

    /// The row at a place, or `None` if the place is not below the count.
    pub fn row(&self, i: usize) -> Option<(&K, &V)>
        ensures { option_map (λ row. (row.0.now, row.1.now)) result ≡ slice_get self.now.rows i }
    {
        match self.rows.get(i) {
            Some(row) => Some((&row.0, &row.1)),
            None => None,
        }
    }

    /// Puts a row after the last one, in the room that is there, which becomes less by 1. Key and value come back
    /// exactly if an equal key is present, and then nothing changes.
    pub fn add(&mut self, k: K, v: V) -> Result<(), (K, V)>
        requires { 0 < self.old.room }
        ensures absent { IsOk result ↔ IsNone (place_of (C.same self.old.callbacks k) self.old.rows) }
        ensures rows { OnOk result (self.new.rows ≡ self.old.rows ++ (k, v) ∷ []) }
        ensures room { OnOk result (self.new.room + 1 ≡ self.old.room) }
        ensures callbacks { OnOk result (self.new.callbacks ≡ self.old.callbacks) }
        ensures err { OnErr result (self.new ≡ self.old) }
        ensures returned { IfErr result (λ back. back ≡ (k, v)) }
    {
        let hash = self.callbacks.hash(&k);
        if seek(&self.rows, &self.index, &self.callbacks, &k, hash).is_some() {
            return Err((k, v));
        }
        self.index.push(hash);
        self.rows.push_reserved((k, v));
        Ok(())
    }

    /// Puts `v` in place of the value of the row at `i`, and gives that value back. The room stays.
    pub fn swap_value(&mut self, i: usize, v: V) -> V
        requires { i < length self.old.rows }
        ensures out { IfSome (slice_get self.old.rows i) (λ row. result ≡ row.1) }
        ensures rows { IfSome (slice_get self.old.rows i) (λ row.
            self.new ≡ record self.old { rows = slice_set self.old.rows i (row.0, v) }) }
    {
        let row = &mut self.rows[i];
        mem::replace(&mut row.1, v)
    }

    /// Puts `k` in place of the equal key of the row at `i`, and gives that key back. The room stays.
    pub fn swap_key(&mut self, i: usize, k: K) -> K
        requires below { i < length self.old.rows }
        requires equal { ForSome (slice_get self.old.rows i) (λ row. C.same self.old.callbacks k row.0 ≡ true) }
        ensures out { IfSome (slice_get self.old.rows i) (λ row. result ≡ row.0) }
        ensures rows { IfSome (slice_get self.old.rows i) (λ row.
            self.new ≡ record self.old { rows = slice_set self.old.rows i (k, row.1) }) }
    {
        let row = &mut self.rows[i];
        mem::replace(&mut row.0, k)
    }

    /// Takes out the row at `i`, and those after it move down; the room becomes more by 1. `None` comes exactly if
    /// `i` is not below the count, and then nothing changes.
    pub fn remove(&mut self, i: usize) -> Option<(K, V)>
        ensures out { result ≡ slice_get self.old.rows i }
        ensures rows { OnSome result (self.new.rows ≡ remove self.old.rows i) }
        ensures room { OnSome result (self.new.room ≡ self.old.room + 1) }
        ensures callbacks { OnSome result (self.new.callbacks ≡ self.old.callbacks) }
        ensures none { IfNone result (self.new ≡ self.old) }
    {
        if i < self.rows.len() {
            self.index.remove(i);
            Some(self.rows.remove(i))
        } else {
            None
        }
    }
}

/// Whether the row has a key that is equal to `k`, whose hash this is. Where the hashes differ, the keys are not
/// compared.
fn has_key<K, V, C: Callbacks<K>>(
    rows: &[(K, V)],
    index: &Index,
    callbacks: &C,
    k: &K,
    hash: u64,
    row: usize,
) -> bool
    requires row { row < length rows.now }
    requires hashes { IsOfKeys (C.hash_of callbacks.now) rows.now index.now.hashes }
    requires hash { hash ≡ C.hash_of callbacks.now k.now }
    ensures { IfSome (slice_get rows.now row) (λ other. result ≡ C.same callbacks.now k.now other.0) }
{
    if index.hash_of(row) != hash {
        return false;
    }
    callbacks.equal(k, &rows[row].0)
}

/// The place of the row whose key is equal to `k`, whose hash this is: the places are looked at from the hash's home
/// on, up to the first that is empty.
fn seek<K, V, C: Callbacks<K>>(
    rows: &[(K, V)],
    index: &Index,
    callbacks: &C,
    k: &K,
    hash: u64,
) -> Option<usize>
    requires hashes { IsOfKeys (C.hash_of callbacks.now) rows.now index.now.hashes }
    requires hash { hash ≡ C.hash_of callbacks.now k.now }
    requires distinct { IsDistinct (C.same callbacks.now) (keys_of rows.now) }
    ensures { result ≡ place_of (C.same callbacks.now k.now) rows.now }
{
    if rows.is_empty() {
        return None;
    }
    let mut place = index.home(hash);
    while let Some(row) = index.row_at(place) {
        if has_key(rows, index, callbacks, k, hash, row) {
            return Some(row);
        }
        place = index.after(place);
    }
    None
}
