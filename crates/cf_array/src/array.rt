//! Arrays, and the calls on them.
ghost use Rattle.std.specs.Prelude.{◌≡◌, ◌+◌, ◌≤◌, ◌<◌, ◌↔◌, [], ◌∷◌, ◌++◌, length, slice_get, slice_set, insert, remove, position, IsOk, OnOk, OnErr, IfOk, IfErr};
ghost use Rattle.std.specs.Option.{option_copied};

use cf_callbacks::Callbacks;
use std::alloc::{AllocError as NoMemory, Global};
use std::marker::Model;
use std::mem;

/// The place does not lie within the array.
#[derive(Clone, Copy, Debug)]
pub struct Range;

/// A growing list of elements.
#[derive(Drop)]
pub struct Array<E> {
    items: Vec<E>,
}

impl<E> Model for Array<E> {
    ghost use Rattle.std.specs.Prelude.{◌-◌, vec_len, vec_capacity};
    ghost use Rattle.cf_array.specs.Arrays.{Elements};

    ghost Value = { Elements E };

    ghost view = { λ a. record { items = a.items.items; room = vec_capacity a.items - vec_len a.items } };
}

impl<E> Array<E> {
    /// No elements and no room; takes no memory.
    pub fn new(alloc: Global) -> Array<E>
        ensures { result ≡ record { items = []; room = 0 } }
    {
        Array {
            items: Vec::new(alloc),
        }
    }

    /// Makes room for at least `more` further elements. `NoMemory` comes only if the room was less, and changes
    /// nothing.
    pub fn reserve(&mut self, more: usize) -> Result<(), NoMemory>
        ensures items { self.new.items ≡ self.old.items }
        ensures room { OnOk result (more ≤ self.new.room) }
        ensures kept { self.old.room ≤ self.new.room }

        // It can be refused only if the room was missing.
        ensures enough { more ≤ self.old.room → IsOk result }
        ensures err { OnErr result (self.new ≡ self.old) }
    {
        self.items.reserve(more)
    }

    /// How many elements there are.
    pub fn length(&self) -> usize
        ensures { result ≡ length self.now.items }
    {
        self.items.len()
    }

    /// The element at a place, or `None` if the place is not below the length.
    pub fn get(&self, i: usize) -> Option<&E>
        ensures { option_copied result ≡ slice_get self.now.items i }
    {
        self.items.get(i)
    }

    /// Puts `e` after the last element, in the room that is there, which becomes less by 1.
    pub fn append(&mut self, e: E)
        requires { 0 < self.old.room }
        ensures items { self.new.items ≡ self.old.items ++ e ∷ [] }
        ensures room { self.new.room + 1 ≡ self.old.room }
    {
        self.items.push_reserved(e);
    }

    /// Puts `e` before the element at `i`, or after the last one if `i` is the length, in the room that is there,
    /// which becomes less by 1. `Range` comes exactly if `i` is above the length; then nothing changes, and `e`
    /// comes back.
    pub fn insert(&mut self, i: usize, e: E) -> Result<(), (Range, E)>
        requires { 0 < self.old.room }
        ensures within { IsOk result ↔ (i ≤ length self.old.items) }
        ensures items { OnOk result (self.new.items ≡ insert self.old.items i e) }
        ensures room { OnOk result (self.new.room + 1 ≡ self.old.room) }
        ensures err { OnErr result (self.new ≡ self.old) }
        ensures returned { IfErr result (λ back. back.1 ≡ e) }
    {
        if self.items.len() < i {
            return Err((Range, e));
        }
        self.items.push_reserved(e);
        self.items[i..].rotate_right(1);
        Ok(())
    }

    /// Puts `e` in place of the element at `i` and gives that one back, or after the last one if `i` is the length:
    /// only then the room becomes less by 1. `Range` comes exactly if `i` is above the length; then nothing changes,
    /// and `e` comes back.
    pub fn set(&mut self, i: usize, e: E) -> Result<Option<E>, (Range, E)>
        requires { 0 < self.old.room }
        ensures within { IsOk result ↔ (i ≤ length self.old.items) }
        ensures old { IfOk result (λ old. old ≡ slice_get self.old.items i) }
        ensures changed { i < length self.old.items →
            self.new ≡ record self.old { items = slice_set self.old.items i e } }
        ensures appended { i ≡ length self.old.items → self.new.items ≡ self.old.items ++ e ∷ [] }
        ensures room { i ≡ length self.old.items → self.new.room + 1 ≡ self.old.room }
        ensures err { OnErr result (self.new ≡ self.old) }
        ensures returned { IfErr result (λ back. back.1 ≡ e) }
    {
        let all = self.items.len();
        if i < all {
            return Ok(Some(mem::replace(&mut self.items[i], e)));
        }
        if all < i {
            return Err((Range, e));
        }
        self.items.push_reserved(e);
        Ok(None)
    }

    /// Takes out the element at `i`, and those after it move down; the room becomes more by 1. `Range` comes exactly
    /// where `i` is not below the length, and then nothing changes.
    pub fn remove(&mut self, i: usize) -> Result<E, Range>
        ensures within { IsOk result ↔ (i < length self.old.items) }
        ensures out { IfOk result (λ e. slice_get self.old.items i ≡ Some e) }
        ensures items { OnOk result (self.new.items ≡ remove self.old.items i) }
        ensures room { OnOk result (self.new.room ≡ self.old.room + 1) }
        ensures err { OnErr result (self.new ≡ self.old) }
    {
        if i < self.items.len() {
            Ok(self.items.remove(i))
        } else {
            Err(Range)
        }
    }

    /// The first place whose element is equal to `e`.
    pub fn index_of<C: Callbacks<E>>(&self, c: &C, e: &E) -> Option<usize>
        ensures { result ≡ position (C.same c.now e.now) self.now.items }
    {
        self.items.iter().position(|item| c.equal(e, item))
    }
}
