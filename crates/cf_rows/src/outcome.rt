//! A case is run, and what it came to is compared with what is wanted.

use crate::answers::answers_of;
use crate::case::Case;
use crate::direct::{Came, came_of_script};
use cf_ids::DEFAULT_LIMIT;
use cf_io::{MemFile, MemSink, MemSource};
use cf_run::{Report, cfrun_serial};
use std::alloc::{AllocError, Global};

/// How what a case came to differs from what is wanted, in lines; nothing where it does not.
pub fn differences_of(alloc: Global, case: &Case) -> Result<String, AllocError> {
    let mut text = String::new(alloc);
    for size in &case.sizes {
        let before = text.len();
        put_differences(alloc, &mut text, case, *size)?;
        if text.len() > before {
            let line = format!(in alloc; "    with {size} bytes a call\n")?;
            text.push_str(line.as_str())?;
        }
    }
    Ok(text)
}

// Runs a case with so many bytes a call, and tells how it differs.
fn put_differences(
    alloc: Global,
    text: &mut String,
    case: &Case,
    size: u64,
) -> Result<(), AllocError> {
    let came = came_of(alloc, case, size)?;
    let entries = came.journal.len() as u64;
    put_number(alloc, text, "status", case.status, came.status)?;
    put_number(alloc, text, "entries", case.entries, entries)?;
    if !case.answers.is_empty() {
        let wanted = str::from_utf8(&case.answers).unwrap_or("");
        let answers = answers_of(alloc, &came.journal, wanted)?;
        put_both(alloc, text, "answers", &case.answers, answers.as_bytes())?;
    }
    if case.is_written_told {
        put_both(alloc, text, "written", &case.written, &came.written)?;
    }
    Ok(())
}

// The files of a case.
fn source_of(alloc: Global, case: &Case, size: u64) -> Result<MemSource, AllocError> {
    let name = String::from_str(alloc, "f")?;
    let bytes = case.script.clone()?;
    let files = vec![in alloc; MemFile { name, bytes }]?;
    Ok(MemSource::new(files, case.failing_reads.clone()?, (size as usize).max(1)))
}

// What a case writes to.
fn sink_of(alloc: Global, case: &Case, size: u64) -> Result<MemSink, AllocError> {
    Ok(MemSink::new(alloc, case.failing_writes.clone()?, (size as usize).max(1)))
}

// What a case comes to. One that asks for each line or for a limit is run without words.
fn came_of(alloc: Global, case: &Case, size: u64) -> Result<Came, AllocError> {
    if case.is_full || case.limit.is_some() {
        let limit = case.limit.unwrap_or(DEFAULT_LIMIT as u64);
        return came_of_script(alloc, &case.script, limit, case.is_full);
    }
    let mut sink = sink_of(alloc, case, size)?;
    let report = report_of(alloc, case, size, &mut sink)?;
    let mut written = Vec::new(alloc);
    written.extend_from_slice(sink.taken())?;
    Ok(Came {
        status: u64::from(report.status),
        journal: report.journal,
        written,
    })
}

// Runs a case by the top call.
fn report_of(
    alloc: Global,
    case: &Case,
    size: u64,
    sink: &mut MemSink,
) -> Result<Report, AllocError> {
    let mut source = source_of(alloc, case, size)?;
    let mut words = Vec::new(alloc);
    for word in &case.words {
        words.push(word.as_str())?;
    }
    Ok(cfrun_serial(alloc, &words, &mut source, sink))
}

// Tells two numbers where one is wanted and another came.
fn put_number(
    alloc: Global,
    text: &mut String,
    what: &str,
    wanted: Option<u64>,
    came: u64,
) -> Result<(), AllocError> {
    if let Some(wanted) = wanted
        && wanted != came
    {
        let line = format!(in alloc; "    {what}: {wanted} wanted, and {came} came\n")?;
        text.push_str(line.as_str())?;
    }
    Ok(())
}

// Tells two texts where they differ.
fn put_both(
    alloc: Global,
    text: &mut String,
    what: &str,
    wanted: &[u8],
    came: &[u8],
) -> Result<(), AllocError> {
    if wanted != came {
        let wanted = lines_of(alloc, wanted)?;
        let came = lines_of(alloc, came)?;
        let lines = format!(in alloc; "{what}, as wanted\n{wanted}{what}, as it came\n{came}")?;
        text.push_str(lines.as_str())?;
    }
    Ok(())
}

// Bytes as the lines of a text in a file of cases.
fn lines_of(alloc: Global, bytes: &[u8]) -> Result<String, AllocError> {
    let mut text = String::new(alloc);
    let mut is_at_start = true;
    for byte in bytes {
        if is_at_start {
            text.push_str("    | ")?;
        }
        is_at_start = *byte == b'\n';
        put_escaped(alloc, &mut text, *byte)?;
    }
    if !is_at_start {
        text.push_str("%\n")?;
    }
    Ok(text)
}

// Puts in a byte, escaped where it would not be read as it is.
fn put_escaped(alloc: Global, text: &mut String, byte: u8) -> Result<(), AllocError> {
    match byte {
        b'%' | 0..=9 | 11..=31 | 127..=255 => {
            let escape = format!(in alloc; "%{byte:02x}")?;
            text.push_str(escape.as_str())
        }
        _ => text.push(char::from(byte)),
    }
}
