//! A real file and the standard output, which tell nothing of their bytes.
ghost use Rattle.std.specs.Prelude.{◌≡◌, None};

use crate::{Failed, Sink, Source};
use cf_fault::raise_count;
use std::fs::File;
use std::io;
use std::io::{Read, Write};
use std::marker::Model;
use std::rt::Files;

/// The system's files. A call that fails counts a fault, and so does a `read` while no file is open.
#[derive(Drop)]
pub struct FileSource<R: Files> {
    rt: R,
    file: Option<R::File>,
    faults: u64,
}

impl<R: Files> Model for FileSource<R> {
    ghost use Rattle.std.specs.Prelude.{ℕ};

    ghost Value = { ℕ };

    ghost view = { λ s. s.faults };
}

impl<R: Files> FileSource<R> {
    /// A source with no file open. Contracts see it as the count of its faults.
    pub fn new(rt: R) -> FileSource<R>
        ensures { result ≡ 0 }
    {
        FileSource {
            rt,
            file: None,
            faults: 0,
        }
    }
}

impl<R: Files> Source for FileSource<R> {
    ghost files = { λ _. None };

    ghost left = { λ _. None };

    ghost faults = { λ s. s };

    fn open(&mut self, name: &str) -> Result<(), Failed> {
        match File::open(&self.rt, name) {
            Ok(file) => {
                self.file = Some(file);
                Ok(())
            }
            Err(_) => {
                self.faults = raise_count(self.faults);
                Err(Failed)
            }
        }
    }

    fn read(&mut self, buf: &mut [u8]) -> Result<usize, Failed> {
        if let Some(file) = &mut self.file
            && let Ok(count) = file.read(buf)
        {
            return Ok(count);
        }
        self.faults = raise_count(self.faults);
        Err(Failed)
    }
}

/// The standard output, not buffered. A call that fails counts a fault, and so does one that takes nothing of a piece
/// that is not empty.
#[derive(Drop)]
pub struct StdSink<R: Print> {
    rt: R,
    faults: u64,
}

impl<R: Print> Model for StdSink<R> {
    ghost use Rattle.std.specs.Prelude.{ℕ};

    ghost Value = { ℕ };

    ghost view = { λ s. s.faults };
}

impl<R: Print> StdSink<R> {
    /// A sink that has counted no fault. Contracts see it as the count of its faults.
    pub fn new(rt: R) -> StdSink<R>
        ensures { result ≡ 0 }
    {
        StdSink { rt, faults: 0 }
    }
}

impl<R: Print> Sink for StdSink<R> {
    ghost taken = { λ _. None };

    ghost faults = { λ s. s };

    fn write(&mut self, bytes: &[u8]) -> Result<usize, Failed> {
        match io::writer(&self.rt).write(bytes) {
            Ok(count) if count > 0 || bytes.is_empty() => Ok(count),
            _ => {
                self.faults = raise_count(self.faults);
                Err(Failed)
            }
        }
    }
}
