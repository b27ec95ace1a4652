//! Texts, and the calls on them.
ghost use Rattle.std.specs.Prelude.{◌≡◌, ◌+◌, ◌<◌, ◌≤◌, ◌↔◌, [], ◌∷◌, ◌++◌, length, take, drop, slice_get, IsOk, IsTrue, IfOk, OnOk, OnErr, IfSome, IfNone, ◌-◌};
ghost use Rattle.std.specs.Char.Utf16.{utf16_lossy_chars};
ghost use Rattle.std.specs.Ordering.{nat_cmp};
ghost use Rattle.std.specs.Cmp.Lexicographic.{slice_cmp};
ghost use Rattle.std.specs.Str.{IsUtf8, chars};
ghost use Rattle.cf_string.specs.Faults.{bytes_fault, split_fault, done_unless, IsRefusedFor};
ghost use Rattle.cf_string.specs.Units.{IsFirstPlace, IsText, StandsAt, StandsNowhereFrom, replacement, units_of};

use crate::decoding::char_at;
use crate::edits::{push_all, put_in, take_out};
use crate::faults::StrFault;
use crate::splits::split_fault;
use std::alloc::{AllocError as NoMemory, Global};
use std::cmp::Ordering;
use std::marker::Model;

/// A text: a list of UTF-16 code units in which every surrogate stands in a pair. Its room is how many more units it
/// can take in before memory has to be taken.
#[derive(Drop)]
pub struct Str {
    units: Vec<u16>,
}

impl Model for Str {
    ghost use Rattle.std.specs.Prelude.{◌-◌, vec_len, vec_capacity};
    ghost use Rattle.cf_string.specs.Units.{IsText, StrView};

    ghost Value = { StrView };

    ghost view = { λ s. record { units = s.units.items; room = vec_capacity s.units - vec_len s.units } };

    ghost invariant = { λ s. IsText s.units.items };
}

impl Str {
    /// The empty text. Its room is 0, and it takes no memory.
    pub fn new(alloc: Global) -> Str
        ensures { result ≡ record { units = []; room = 0 } }
    {
        Str {
            units: Vec::new(alloc),
        }
    }

    /// Makes room for at least `more` further units. `NoMemory` comes only if the room was less, and then the text
    /// and its room are as before.
    pub fn reserve(&mut self, more: usize) -> Result<(), NoMemory>
        ensures units { self.new.units ≡ self.old.units }
        ensures room { OnOk result (more ≤ self.new.room) }
        ensures kept { self.old.room ≤ self.new.room }
        ensures enough { more ≤ self.old.room → IsOk result }
        ensures refused { OnErr result (self.new ≡ self.old) }
    {
        self.units.reserve(more)
    }

    /// The text that the bytes spell in UTF-8; how much room it has is left open. `NotUtf8` comes exactly if the bytes
    /// are not UTF-8, and `NoMemory` only for want of memory.
    pub fn from_utf8(alloc: Global, bytes: &[u8]) -> Result<Str, StrFault>
        ensures fault { IsRefusedFor result (bytes_fault bytes.now) }
        ensures units { IfOk result (λ s. s.units ≡ units_of (chars bytes.now)) }
    {
        let Ok(text) = str::from_utf8(bytes) else {
            return Err(StrFault::NotUtf8);
        };
        let units = units_of_text(alloc, text)?;
        Ok(Str { units })
    }

    /// How many units there are.
    pub fn length(&self) -> usize
        ensures length { result ≡ length self.now.units }
        ensures text { IsText self.now.units }
    {
        self.units.len()
    }

    /// The unit at `i`, and `None` from the length on.
    pub fn unit_at(&self, i: usize) -> Option<u16>
        ensures { result ≡ slice_get self.now.units i }
    {
        self.units.get(i).copied()
    }

    /// The character whose units begin at `at`, and where the next one begins.
    pub fn char_at(&self, at: usize) -> (char, usize)
        requires { at < length self.now.units }
        ensures bound { (at < result.1) × (result.1 ≤ length self.now.units) }
        ensures first { let units = self.now.units in
            utf16_lossy_chars (drop at units) ≡ result.0 ∷ utf16_lossy_chars (drop result.1 units) }
    {
        char_at(&self.units, at)
    }

    /// Why the `len` units from `at` on may not be cut out, if they may not: `Range` if they pass the length, else
    /// `SplitsPair` if one of the two ends falls inside a surrogate pair.
    pub fn split_fault(&self, at: usize, len: usize) -> Option<StrFault>
        ensures { result ≡ split_fault self.now.units at len }
    {
        split_fault(&self.units, at, len)
    }

    /// The `len` units from `at` on, as a text of their own; how much room it has is left open. `Range` and
    /// `SplitsPair` come exactly if `split_fault` gives them, and `NoMemory` only for want of memory.
    pub fn substring(&self, alloc: Global, at: usize, len: usize) -> Result<Str, StrFault>
        ensures fault { IsRefusedFor result (split_fault self.now.units at len) }
        ensures units { IfOk result (λ s. s.units ≡ take len (drop at self.now.units)) }
    {
        if let Some(fault) = split_fault(&self.units, at, len) {
            return Err(fault);
        }
        let units = Vec::from_slice(alloc, &self.units[at..at + len])?;
        Ok(Str { units })
    }

    /// Puts the other text at the end of this one, in the room that is there: the room becomes less by the other's
    /// length, and no memory is taken.
    pub fn append(&mut self, other: &Str)
        requires { length other.now.units ≤ self.old.room }
        ensures units { self.new.units ≡ self.old.units ++ other.now.units }
        ensures room { self.new.room + length other.now.units ≡ self.old.room }
    {
        push_all(&mut self.units, &other.units);
    }

    /// Puts the other text in at the place `at`, in the room that is there: the room becomes less by the other's
    /// length, and no memory is taken. `Range` comes exactly if `at` passes the length, and `SplitsPair` exactly if it
    /// falls inside a surrogate pair. A refusal changes nothing.
    pub fn insert(&mut self, at: usize, other: &Str) -> Result<(), StrFault>
        requires { length other.now.units ≤ self.old.room }
        ensures fault { result ≡ done_unless (split_fault self.old.units at 0) }
        ensures units { OnOk result (self.new.units ≡ replacement self.old.units at 0 other.now.units) }
        ensures room { OnOk result (self.new.room + length other.now.units ≡ self.old.room) }
        ensures refused { OnErr result (self.new ≡ self.old) }
    {
        if let Some(fault) = split_fault(&self.units, at, 0) {
            return Err(fault);
        }
        put_in(&mut self.units, at, &other.units);
        Ok(())
    }

    /// Takes out the `len` units from `at` on, and gives their places back: the room becomes more by `len`. `Range`
    /// and `SplitsPair` come exactly if `split_fault` gives them. A refusal changes nothing.
    pub fn delete(&mut self, at: usize, len: usize) -> Result<(), StrFault>
        ensures fault { result ≡ done_unless (split_fault self.old.units at len) }
        ensures units { OnOk result (self.new.units ≡ replacement self.old.units at len []) }
        ensures room { OnOk result (self.new.room ≡ self.old.room + len) }
        ensures refused { OnErr result (self.new ≡ self.old) }
    {
        if let Some(fault) = split_fault(&self.units, at, len) {
            return Err(fault);
        }
        take_out(&mut self.units, at, len);
        Ok(())
    }

    /// Puts the other text in place of the `len` units from `at` on, in the room that is there: the room becomes more
    /// by `len` and less by the other's length, and no memory is taken. `Range` and `SplitsPair` come exactly if
    /// `split_fault` gives them. A refusal changes nothing.
    pub fn replace(&mut self, at: usize, len: usize, other: &Str) -> Result<(), StrFault>
        requires { length other.now.units ≤ self.old.room }
        ensures fault { result ≡ done_unless (split_fault self.old.units at len) }
        ensures units { OnOk result (self.new.units ≡ replacement self.old.units at len other.now.units) }
        ensures room { OnOk result (self.new.room + length other.now.units ≡ self.old.room + len) }
        ensures refused { OnErr result (self.new ≡ self.old) }
    {
        if let Some(fault) = split_fault(&self.units, at, len) {
            return Err(fault);
        }
        put_in(&mut self.units, at + len, &other.units);
        take_out(&mut self.units, at, len);
        Ok(())
    }

    /// The least place at or after `from` where the other text stands. An empty text stands at each place up to
    /// the length.
    pub fn find(&self, other: &Str, from: usize) -> Option<usize>
        ensures found { IfSome result (IsFirstPlace self.now.units other.now.units from) }
        ensures none { IfNone result (StandsNowhereFrom self.now.units other.now.units from) }
    {
        first_place(&self.units, &other.units, from)
    }

    /// Whether this text begins with the other.
    pub fn has_prefix(&self, other: &Str) -> bool
        ensures { IsTrue result ↔ StandsAt self.now.units other.now.units 0 }
    {
        self.units.starts_with(&other.units)
    }

    /// Whether this text ends with the other.
    pub fn has_suffix(&self, other: &Str) -> bool
        ensures { let last = length self.now.units - length other.now.units in
            IsTrue result ↔ StandsAt self.now.units other.now.units last }
    {
        self.units.ends_with(&other.units)
    }

    /// The order of the two texts by their units: the first unit that differs decides, else the lengths do.
    pub fn compare(&self, other: &Str) -> Ordering
        ensures { result ≡ slice_cmp nat_cmp self.now.units other.now.units }
    {
        self.units.as_slice().cmp(&other.units.as_slice())
    }

    /// A text with the same units; how much room it has is left open. `NoMemory` comes for want of memory alone.
    pub fn copy(&self, alloc: Global) -> Result<Str, NoMemory>
        ensures { IfOk result (λ s. s.units ≡ self.now.units) }
    {
        let units = Vec::from_slice(alloc, &self.units)?;
        Ok(Str { units })
    }

    /// The text in UTF-8. `from_utf8` makes these bytes the same text again. `NoMemory` comes for want of memory
    /// alone.
    pub fn utf8(&self, alloc: Global) -> Result<Vec<u8>, NoMemory>
        ensures utf8 { IfOk result (λ bytes. IsUtf8 bytes.items) }
        ensures units { IfOk result (λ bytes. units_of (chars bytes.items) ≡ self.now.units) }
    {
        let Ok(text) = String::from_utf16(alloc, &self.units)? else {
            unreachable!()
        };
        Ok(text.into_bytes())
    }
}

/// The units of the text's characters. No text has more units than bytes.
fn units_of_text(alloc: Global, text: &str) -> Result<Vec<u16>, NoMemory>
    ensures { IfOk result (λ units. units.items ≡ units_of (chars text.now)) }
{
    let mut units = Vec::with_capacity(alloc, text.len())?;
    for character in text.chars() {
        let mut pair = [0; 2];
        units.extend_from_slice(character.encode_utf16(&mut pair))?;
    }
    Ok(units)
}

/// The least place at or after `from` where `other` stands in the units.
fn first_place(units: &[u16], other: &[u16], from: usize) -> Option<usize>
    ensures found { IfSome result (IsFirstPlace units.now other.now from) }
    ensures none { IfNone result (StandsNowhereFrom units.now other.now from) }
{
    if units.len() < other.len() {
        return None;
    }
    for place in from..units.len() - other.len() + 1 {
        if stands_at(units, other, place) {
            return Some(place);
        }
    }
    None
}

/// Whether `other` stands in the units at `place`.
fn stands_at(units: &[u16], other: &[u16], place: usize) -> bool
    requires { place + length other.now ≤ length units.now }
    ensures { IsTrue result ↔ StandsAt units.now other.now place }
{
    units[place..].starts_with(other)
}
