//! Lines go out, each by one `write_all`.
ghost use Rattle.std.specs.Prelude.{◌≡◌, ◌∷◌, ◌++◌, [], false, OnOk};
ghost use Rattle.cf_render.specs.Ends.{lines_of};
ghost use Rattle.cf_render.specs.Rendering.{entry_lines, rendering, text_of_lines};
ghost use Rattle.cf_run.specs.Settled.{HasRunBy};
ghost use Rattle.cf_run.specs.Written.{Writes, WritesAll, line_if};
ghost use Rattle.cf_run.specs.declared.output.Unwritten.TheVariants.{NoMemory};

use cf_io::{Sink, write_all};
use cf_model::Entry;
use cf_render::{edges_in_any_order, end_lines, is_written, put_line};
use cf_script::Script;
use cf_serial::Ran;
use std::alloc::{AllocError, Global};
use thiserror::Error;

/// Why the lines due were not all written.
#[derive(Clone, Copy, Debug, Error)]
pub enum Unwritten {
    /// A write failed.
    #[error("a write failed")]
    Fault,
    /// There was no memory for a line.
    #[error("out of memory")]
    NoMemory,
}

impl From<AllocError> for Unwritten {
    ghost from_gives = { λ _ e. e ≡ NoMemory };

    fn from(_error: AllocError) -> Unwritten {
        Unwritten::NoMemory
    }
}

/// Writes the text of one line, with its line feed.
pub fn write_text<K: Sink>(sink: &mut K, text: &[u8]) -> Result<(), Unwritten>
    ensures { WritesAll result text.now (K.taken sink.old) (K.taken sink.new) (K.faults sink.old) (K.faults sink.new) }
{
    match write_all(sink, text) {
        Ok(()) => Ok(()),
        Err(_) => Err(Unwritten::Fault),
    }
}

// Writes the line of an entry, if it is written. The line stands in a text that each line uses again.
fn write_entry<K: Sink>(
    sink: &mut K,
    text: &mut Vec<u8>,
    script: &Script,
    entry: &Entry,
) -> Result<(), Unwritten>
    ensures { Writes result (text_of_lines (line_if script.now entry.now)) (K.taken sink.old) (K.taken sink.new)
        (K.faults sink.old) (K.faults sink.new) }
{
    if !is_written(false, entry) {
        return Ok(());
    }
    text.clear();
    put_line(text, script, entry)?;
    write_text(sink, text.as_slice())
}

// Writes the lines of the entries.
fn write_entries<K: Sink>(
    alloc: Global,
    sink: &mut K,
    script: &Script,
    journal: &[Entry],
) -> Result<(), Unwritten>
    ensures { Writes result (text_of_lines (entry_lines script.now false journal.now)) (K.taken sink.old)
        (K.taken sink.new) (K.faults sink.old) (K.faults sink.new) }
{
    let mut text = Vec::new(alloc);
    for entry in journal {
        write_entry(sink, &mut text, script, entry)?;
    }
    Ok(())
}

// Puts a line with its line feed in a text's place.
fn put_in_place(text: &mut Vec<u8>, line: &[u8]) -> Result<(), AllocError>
    ensures { OnOk result (text.new.items ≡ line.now ++ 10 ∷ []) }
{
    text.clear();
    text.extend_from_slice(line)?;
    Ok(text.push(b'\n')?)
}

// Writes a line that has no line feed yet. It stands in a text that each line uses again.
fn write_line<K: Sink>(sink: &mut K, text: &mut Vec<u8>, line: &[u8]) -> Result<(), Unwritten>
    ensures { WritesAll result (line.now ++ 10 ∷ []) (K.taken sink.old) (K.taken sink.new) (K.faults sink.old)
        (K.faults sink.new) }
{
    put_in_place(text, line)?;
    write_text(sink, text.as_slice())
}

// Writes lines that have no line feeds yet.
fn write_lines<K: Sink>(alloc: Global, sink: &mut K, lines: &[Vec<u8>]) -> Result<(), Unwritten>
    ensures { WritesAll result (text_of_lines (lines_of lines.now)) (K.taken sink.old) (K.taken sink.new)
        (K.faults sink.old) (K.faults sink.new) }
{
    let mut text = Vec::new(alloc);
    for line in lines {
        write_line(sink, &mut text, line)?;
    }
    Ok(())
}

/// Writes the lines of a run that is over.
pub fn write_run<K: Sink>(alloc: Global, sink: &mut K, ran: &Ran) -> Result<(), Unwritten>
    requires { HasRunBy ran.now }
    ensures { WritesAll result (rendering ran.now.script ran.now.journal.items ran.now.ending false) (K.taken sink.old)
        (K.taken sink.new) (K.faults sink.old) (K.faults sink.new) }
{
    let script = ran.script.script();
    let journal = ran.journal.as_slice();
    write_entries(alloc, sink, script, journal)?;
    edges_in_any_order();
    let lines = end_lines(alloc, script, journal, ran.edges.as_slice(), ran.ending)?;
    write_lines(alloc, sink, lines.as_slice())
}
