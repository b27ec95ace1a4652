//! The top call.
ghost use Rattle.std.specs.Prelude.{◌≡◌, ℕ, List};
ghost use Rattle.cf_run.specs.Calls.{SourceState, told_by, took_by, call_by, call_of};
ghost use Rattle.cf_run.specs.Outcomes.{Outcome, Tells};
ghost use Rattle.cf_run.specs.Settled.{CanWrite, Settles, due_of, status_after as after};
ghost use Rattle.cf_run.specs.Written.{WritesAll};

use crate::lines::refusal_line;
use crate::output::{Unwritten, write_run, write_text};
use crate::report::Report;
use crate::settle::{Settled, settle};
use cf_io::{Sink, Source};
use std::alloc::Global;

// Writes the lines that are due.
fn write_settled<K: Sink>(alloc: Global, sink: &mut K, settled: &Settled) -> Result<(), Unwritten>
    requires { CanWrite settled.now }
    ensures { WritesAll result (due_of settled.now) (K.taken sink.old) (K.taken sink.new) (K.faults sink.old)
        (K.faults sink.new) }
{
    match settled {
        Settled::Usage => write_text(sink, b"usage: cfrun run [--serial] FILE\n"),
        Settled::ReadFault => write_text(sink, b"read fault\n"),
        Settled::Refused(refusal) => {
            let line = refusal_line(alloc, *refusal)?;
            write_text(sink, line.as_bytes())
        }
        Settled::Ran(ran) => write_run(alloc, sink, ran),
    }
}

// The status after the lines were written, or not.
fn status_after(written: Result<(), Unwritten>, settled: &Settled) -> u8
    ensures { result ≡ after written settled.now }
{
    match written {
        Ok(()) => settled.status(),
        Err(Unwritten::Fault) => 5,
        Err(Unwritten::NoMemory) => 6,
    }
}

// Writes the lines that are due, and reports.
fn conclude<K: Sink>(alloc: Global, sink: &mut K, settled: Settled) -> Report
    requires { CanWrite settled }
    ensures { (words : List (List ℕ)) (before after : SourceState) → Settles words before after settled
        → Outcome (call_by words before after (took_by K.taken K.faults sink.old)
        (took_by K.taken K.faults sink.new) result) }
{
    let written = write_settled(alloc, sink, &settled);
    let status = status_after(written, &settled);
    Report {
        status,
        journal: settled.into_journal(alloc),
    }
}

// Does what the words say.
fn run_command<S: Source, K: Sink>(
    alloc: Global,
    words: &[&str],
    source: &mut S,
    sink: &mut K,
) -> Report
    ensures { Outcome (call_of words.now
        (told_by S.files S.left S.faults source.old) (told_by S.files S.left S.faults source.new)
        (took_by K.taken K.faults sink.old) (took_by K.taken K.faults sink.new) result) }
{
    match settle(alloc, words, source) {
        Ok(settled) => conclude(alloc, sink, settled),
        Err(_) => Report {
            status: 6,
            journal: Vec::new(alloc),
        },
    }
}

/// Does what the words after the program's name say: `run FILE` and `run --serial FILE` read the script FILE from the
/// source, run it in the serial order, and write the lines of its journal to the sink. Every other command line is
/// answered by a usage line. Lines are written after the run has ended, each by one `write_all`.
///
/// The status is 0 if the script ran to its end; 2 if the words are of no form; 3 where the file is refused; 4 where
/// it could not be read; 5 where a line could not be written; 6 where memory ran out; 7 where the journal was at its
/// limit of 1,000,000 entries before the script's end; 8 where the next action makes an object, and 65,536 were made; 9
/// where every thread that is not done sleeps without a date.
pub fn cfrun_serial<S: Source, K: Sink>(
    alloc: Global,
    words: &[&str],
    source: &mut S,
    sink: &mut K,
) -> Report
    // What is said of the call: `Tells` has it status by status, each with a sentence.
    ensures tells { Tells (call_of words.now
        (told_by S.files S.left S.faults source.old) (told_by S.files S.left S.faults source.new)
        (took_by K.taken K.faults sink.old) (took_by K.taken K.faults sink.new) result) }
{
    run_command(alloc, words, source, sink)
}
