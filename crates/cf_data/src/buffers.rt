//! Bytes that grow, and the calls on them.
ghost use Rattle.std.specs.Prelude.{◌≡◌, ◌+◌, ◌-◌, ◌≤◌, ◌↔◌, [], ◌++◌, length, take, drop, vec_len, vec_capacity, IsOk, OnOk, OnErr, IfOk};
ghost use Rattle.std.specs.List.{splice};

use crate::edits::{insert_all, push_all, take_out};
use std::alloc::{AllocError as NoMemory, Global};
use std::marker::Model;

/// The range does not lie within the bytes.
#[derive(Clone, Copy, Debug)]
pub struct Range;

/// A growing list of bytes. Its room is how many more it can take in before memory has to be taken.
#[derive(Drop)]
pub struct Bytes {
    bytes: Vec<u8>,
}

impl Model for Bytes {
    ghost use Rattle.std.specs.Prelude.{◌-◌, vec_len, vec_capacity};
    ghost use Rattle.cf_data.specs.Buffers.{Buffer};

    ghost Value = { Buffer };

    ghost view = { λ b. record { items = b.bytes.items; room = vec_capacity b.bytes - vec_len b.bytes } };
}

impl Bytes {
    /// No bytes and no room; takes no memory.
    pub fn new(alloc: Global) -> Bytes
        ensures { result ≡ record { items = []; room = 0 } }
    {
        Bytes {
            bytes: Vec::new(alloc),
        }
    }

    /// Makes room for at least `more` further bytes. `NoMemory` comes only if the room was less, and changes
    /// nothing.
    pub fn reserve(&mut self, more: usize) -> Result<(), NoMemory>
        ensures items { self.new.items ≡ self.old.items }
        ensures room { OnOk result (more ≤ self.new.room) }
        ensures kept { self.old.room ≤ self.new.room }

        // It can be refused only if the room was missing.
        ensures enough { more ≤ self.old.room → IsOk result }
        ensures err { OnErr result (self.new ≡ self.old) }
    {
        self.bytes.reserve(more)
    }

    /// How many bytes there are.
    pub fn length(&self) -> usize
        ensures { result ≡ length self.now.items }
    {
        self.bytes.len()
    }

    /// The bytes, in order.
    pub fn get(&self) -> &[u8]
        ensures { result.now ≡ self.now.items }
    {
        self.bytes.as_slice()
    }

    /// Bytes of their own with the same contents; how much room they have is left open. `NoMemory` comes for want of
    /// memory alone.
    pub fn copy(&self, alloc: Global) -> Result<Bytes, NoMemory>
        ensures { IfOk result (λ copied. copied.items ≡ self.now.items) }
    {
        Ok(Bytes {
            bytes: Vec::from_slice(alloc, self.bytes.as_slice())?,
        })
    }

    /// Puts `b` after the last byte, in the room that is there, which becomes less by the length of `b`.
    pub fn append(&mut self, b: &[u8])
        requires { length b.now ≤ self.old.room }
        ensures items { self.new.items ≡ self.old.items ++ b.now }
        ensures room { self.new.room + length b.now ≡ self.old.room }
    {
        push_all(&mut self.bytes, b);
    }

    /// Puts `b` in place of the `len` bytes from `at` on, in the room that is there, which becomes more by `len` and
    /// less by the length of `b`. `Range` comes exactly if these do not lie within the bytes, and then nothing
    /// changes.
    pub fn replace(&mut self, at: usize, len: usize, b: &[u8]) -> Result<(), Range>
        requires { length b.now ≤ self.old.room }
        ensures within { IsOk result ↔ (at + len ≤ length self.old.items) }
        ensures items { OnOk result (self.new.items ≡ splice self.old.items at (at + len) b.now) }
        ensures room { OnOk result (self.new.room + length b.now ≡ self.old.room + len) }
        ensures err { OnErr result (self.new ≡ self.old) }
    {
        self.delete(at, len)?;
        insert_all(&mut self.bytes, at, b);
        Ok(())
    }

    /// Takes out the `len` bytes from `at` on; the room becomes more by `len`. `Range` comes exactly if these do not
    /// lie within the bytes, and then nothing changes.
    pub fn delete(&mut self, at: usize, len: usize) -> Result<(), Range>
        ensures within { IsOk result ↔ (at + len ≤ length self.old.items) }
        ensures items { OnOk result (self.new.items ≡ take at self.old.items ++ drop (at + len) self.old.items) }
        ensures room { OnOk result (self.new.room ≡ self.old.room + len) }
        ensures err { OnErr result (self.new ≡ self.old) }
    {
        let all = self.bytes.len();
        if all < at || all - at < len {
            return Err(Range);
        }
        take_out(&mut self.bytes, at, len);
        Ok(())
    }
}
