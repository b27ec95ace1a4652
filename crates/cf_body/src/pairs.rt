//! The pairs of a dictionary.
ghost use Rattle.std.specs.Prelude.{◌≡◌, ◌+◌, ◌≤◌, ◌<◌, [], length, slice_get, IsOk, OnOk, OnErr};
ghost use Rattle.std.specs.Map.{lookup, lookup_entry, remove_entry};
ghost use Rattle.std.specs.Option.{option_map};
ghost use Rattle.cf_contents.specs.Keys.{equal_to};
ghost use Rattle.cf_basichash.specs.Tables.{pairs_with};
ghost use Rattle.cf_body.specs.Pairs.{numbers_in};

use cf_dictionary::{Dict, DictSet};
use cf_ids::{ObjId, TypeId};
use cf_types::{Cell, CellCallbacks, Form, Leaf};
use std::alloc::{AllocError as NoMemory, Global};
use std::marker::Model;

/// The pairs of a dictionary. Contracts see whether it is plain, each key with the number of its value, and how
/// many more pairs come in without memory.
#[derive(Drop)]
pub struct Pairs {
    plain: bool,
    rows: Dict<Cell, CellCallbacks>,
}

impl Model for Pairs {
    ghost use Rattle.std.specs.Prelude.{◌≡◌, map};
    ghost use Rattle.cf_contents.specs.Contents.{callbacks_of};
    ghost use Rattle.cf_body.specs.Pairs.{PairsView, pair_in};

    ghost Value = { PairsView };

    ghost view = { λ p. record {
      plain = p.plain;
      items = map pair_in p.rows.rows;
      room = p.rows.room;
    } };

    ghost invariant = { λ p. p.rows.callbacks ≡ callbacks_of p.plain };
}

impl Pairs {
    /// No pairs. It takes no memory.
    pub fn new(alloc: Global, plain: bool) -> Pairs
        ensures { result ≡ record { plain = plain; items = []; room = 0 } }
    {
        let callbacks = if plain {
            CellCallbacks::Plain
        } else {
            CellCallbacks::Typed
        };
        Pairs {
            plain,
            rows: Dict::new(alloc, callbacks),
        }
    }

    /// Makes room for at least `more` further pairs. `NoMemory` comes only if the room was less, and changes nothing.
    pub fn reserve(&mut self, more: usize) -> Result<(), NoMemory>
        ensures plain { self.new.plain ≡ self.old.plain }
        ensures items { self.new.items ≡ self.old.items }
        ensures room { OnOk result (more ≤ self.new.room) }
        ensures kept { self.old.room ≤ self.new.room }

        // It can be refused only if the room was missing.
        ensures enough { more ≤ self.old.room → IsOk result }
        ensures refused { OnErr result (self.new ≡ self.old) }
    {
        self.rows.reserve(more)
    }

    /// Whether the dictionary is plain.
    pub fn plain(&self) -> bool
        ensures { result ≡ self.now.plain }
    {
        self.plain
    }

    /// How many pairs there are.
    pub fn count(&self) -> usize
        ensures { result ≡ length self.now.items }
    {
        self.rows.count()
    }

    /// The key and the value at a place.
    pub fn row(&self, i: usize) -> Option<(ObjId, ObjId)>
        ensures { result ≡ option_map numbers_in (slice_get self.now.items i) }
    {
        let (key, value) = self.rows.row(i)?;
        Some((key.id, value.id))
    }

    /// The value of the key that is equal to one.
    pub fn get(&self, key: &Cell) -> Option<ObjId>
        ensures { result ≡ lookup (equal_to self.now.plain key.now) self.now.items }
    {
        match self.rows.get(key) {
            Some(value) => Some(value.id),
            None => None,
        }
    }

    /// Lets an object be the value of the key that is equal to one, and gives the value before, or adds the pair.
    pub fn put(&mut self, key: Cell, value: ObjId) -> Option<ObjId>
        requires { 0 < self.old.room }
        ensures old { result ≡ lookup (equal_to self.old.plain key) self.old.items }
        ensures plain { self.new.plain ≡ self.old.plain }
        ensures items { self.new.items ≡ pairs_with (equal_to self.old.plain key) self.old.items key value }
    {
        match self.rows.set(key, value_cell(value)) {
            DictSet::Added => None,
            DictSet::Changed { old, .. } => Some(id_of(old)),
        }
    }

    /// Removes the pair whose key is equal to one, and gives its key and value.
    pub fn remove(&mut self, key: &Cell) -> Option<(ObjId, ObjId)>
        ensures out { let out = lookup_entry (equal_to self.old.plain key.now) self.old.items in
            result ≡ option_map numbers_in out }
        ensures plain { self.new.plain ≡ self.old.plain }
        ensures items { self.new.items ≡ remove_entry (equal_to self.old.plain key.now) self.old.items }
    {
        match self.rows.remove(key) {
            Some((key, value)) => Some((id_of(key), id_of(value))),
            None => None,
        }
    }
}

/// An object as the value of a pair, which is never compared.
fn value_cell(id: ObjId) -> Cell
    ensures { result.id ≡ id }
{
    Cell {
        id,
        leaf: Leaf {
            class: TypeId::STRING,
            form: Form::Same(id),
        },
    }
}

/// The number of the object in a cell.
fn id_of(cell: Cell) -> ObjId
    ensures { result ≡ cell.id }
{
    cell.id
}
