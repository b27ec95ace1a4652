//! A source in memory.
ghost use Rattle.std.specs.Prelude.{◌≡◌, ◌<◌, ◌≤◌, ◌+◌, ◌^◌, ◌++◌, ◌↔◌, ◌⊎◌, [], Some, None, length, take, drop, position, min, Contains, IfOk, OnOk, OnErr, IsErr};
ghost use Rattle.cf_fault.specs.Fault.{HasCause};
ghost use Rattle.cf_io.specs.Files.{content_of};
ghost use Rattle.cf_io.specs.Memory.{after_call};
ghost use Rattle.cf_io.specs.Faults.{faults_after};
ghost use Rattle.std.specs.String.{string_bytes};
ghost use Rattle.std.specs.Str.{bytes_eq};
ghost use Rattle.cf_io.specs.MemFiles.{files_of, rest_of};

use crate::schedule::Schedule;
use crate::{Failed, Source};
use std::marker::Model;

/// A file in memory.
#[derive(Drop)]
pub struct MemFile {
    /// The name under which it is opened. Of files with one name the first is opened.
    pub name: String,
    /// The contents.
    pub bytes: Vec<u8>,
}

/// Files in memory. It tells their contents; calls of `open` and `read`, counted together from 0, fail if they are
/// listed, and so does an `open` of a name that is missing.
#[derive(Drop)]
pub struct MemSource {
    files: Vec<MemFile>,
    schedule: Schedule,
    most: usize,
    place: Option<usize>,
    at: usize,
}

impl Model for MemSource {
    ghost use Rattle.std.specs.Prelude.{◌<◌};
    ghost use Rattle.cf_io.specs.Memory.{SourceState};
    ghost use Rattle.cf_io.specs.MemFiles.{files_of, rest_of};

    ghost Value = { SourceState };

    ghost view = { λ s. record {
      files = files_of s.files.items;
      left = rest_of s.files.items s.place s.at;
      faults = s.schedule.faults;
      plan = record { failing = s.schedule.failing.items; calls = s.schedule.calls; most = s.most };
    } };

    ghost invariant = { λ s. 0 < s.most };
}

impl MemSource {
    /// These files, none of them open; the calls listed in `failing` fail, and a read gives at most `most` bytes.
    pub fn new(files: Vec<MemFile>, failing: Vec<u64>, most: usize) -> MemSource
        requires { 0 < most }
        ensures files { result.files ≡ files_of files.items }
        ensures left { result.left ≡ [] }
        ensures faults { result.faults ≡ 0 }
        ensures plan { result.plan ≡ record { failing = failing.items; calls = 0; most = most } }
    {
        MemSource {
            files,
            schedule: Schedule::new(failing),
            most,
            place: None,
            at: 0,
        }
    }
}

impl Source for MemSource {
    ghost files = { λ s. Some s.files };

    ghost left = { λ s. Some s.left };

    ghost faults = { λ s. s.faults };

    fn open(&mut self, name: &str) -> Result<(), Failed>
        ensures failed { IsErr result ↔ (Contains self.old.plan.failing self.old.plan.calls
            ⊎ (content_of self.old.files name.now ≡ None)) }
        ensures opened { OnOk result (Some self.new.left ≡ content_of self.old.files name.now) }
        ensures files { self.new.files ≡ self.old.files }
        ensures kept { OnErr result (self.new.left ≡ self.old.left) }
        ensures plan { self.new.plan ≡ after_call self.old.plan }
        ensures faults { self.new.faults ≡ faults_after result self.old.faults }
        ensures cause { HasCause result self.old.faults self.new.faults }
    {
        self.schedule.begin()?;
        match place_of(&self.files, name) {
            None => Err(self.schedule.fault()),
            Some(place) => {
                self.place = Some(place);
                self.at = 0;
                Ok(())
            }
        }
    }

    fn read(&mut self, buf: &mut [u8]) -> Result<usize, Failed>
        requires { 0 < length buf.old }
        ensures failed { IsErr result ↔ Contains self.old.plan.failing self.old.plan.calls }
        ensures count { IfOk result (λ n. n ≡ min (min (length self.old.left) (length buf.old)) self.old.plan.most) }
        ensures end { IfOk result (λ n. n ≡ 0 → self.old.left ≡ []) }
        ensures bytes { IfOk result (λ n. self.old.left ≡ take n buf.new ++ self.new.left) }
        ensures files { self.new.files ≡ self.old.files }
        ensures kept { OnErr result (self.new.left ≡ self.old.left) }
        ensures plan { self.new.plan ≡ after_call self.old.plan }
        ensures faults { self.new.faults ≡ faults_after result self.old.faults }
        ensures cause { HasCause result self.old.faults self.new.faults }
    {
        self.schedule.begin()?;
        let left = rest(&self.files, self.place, self.at);
        let count = copy_front(left, buf, self.most);
        self.at += count;
        Ok(count)
    }
}

// The place of the first file of this name.
fn place_of(files: &[MemFile], name: &str) -> Option<usize>
    ensures { result ≡ position (λ file. bytes_eq (string_bytes file.name) name.now) files.now }
{
    files.iter().position(|file| file.name.as_str() == name)
}

// The bytes of the open file from one of them on.
fn rest(files: &[MemFile], place: Option<usize>, at: usize) -> &[u8]
    ensures bytes { result.now ≡ rest_of files.now place at }
    ensures fits { at + length result.now < 2 ^ 64 }
{
    match place {
        Some(place) if place < files.len() => from(&files[place].bytes, at),
        _ => &[],
    }
}

// The bytes from one of them on.
fn from(bytes: &[u8], at: usize) -> &[u8]
    ensures bytes { result.now ≡ drop at bytes.now }
    ensures fits { at + length result.now < 2 ^ 64 }
{
    if at < bytes.len() { &bytes[at..] } else { &[] }
}

// Copies the first bytes to the front of a buffer: as many as there are, as fit, and at most so many.
fn copy_front(bytes: &[u8], buf: &mut [u8], most: usize) -> usize
    requires room { 0 < length buf.old }
    requires some { 0 < most }
    ensures count { result ≡ min (min (length bytes.now) (length buf.old)) most }
    ensures copied { bytes.now ≡ take result buf.new ++ drop result bytes.now }
    ensures end { result ≡ 0 → bytes.now ≡ [] }
{
    let count = bytes.len().min(buf.len()).min(most);
    buf[..count].copy_from_slice(&bytes[..count]);
    count
}
