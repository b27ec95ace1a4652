//! Bytes in and out: whole files that are read and whole texts that are written, in memory and by the system.
use crate::check::assert_gives;
use cf_io::{FileSource, MemFile, MemSink, MemSource, Source, StdSink, read_all, write_all};
use std::alloc::{AllocError, Global};
use std::test::Fail;
use std::{fs, process};

// A file named `f` in memory, what reading it gives, and what one more read gives then, which shows whether a call
// that fails was made.
struct ReadCase {
    about: &'static str,
    name: &'static str,
    bytes: &'static [u8],
    most: usize,
    failing: &'static [u64],
    limit: usize,
    gives: &'static str,
}

const READ_CASES: [ReadCase; 10] = [
    ReadCase {
        about: "an empty file",
        name: "f",
        bytes: b"",
        most: 100,
        failing: &[],
        limit: 4,
        gives: "Ok([]), then Ok(0)",
    },
    ReadCase {
        about: "one byte a call",
        name: "f",
        bytes: b"hey",
        most: 1,
        failing: &[],
        limit: 100,
        gives: "Ok([104, 101, 121]), then Ok(0)",
    },
    ReadCase {
        about: "a second read that fails after 10 bytes",
        name: "f",
        bytes: b"0123456789ab",
        most: 10,
        failing: &[2],
        limit: 100,
        gives: "Err(ReadFault), then Ok(2)",
    },
    ReadCase {
        about: "a file of as many bytes as the limit",
        name: "f",
        bytes: b"hey!",
        most: 3,
        failing: &[],
        limit: 4,
        gives: "Ok([104, 101, 121, 33]), then Ok(0)",
    },
    ReadCase {
        about: "a file of one byte more than the limit",
        name: "f",
        bytes: b"hey!",
        most: 3,
        failing: &[],
        limit: 3,
        gives: "Err(TooLong), then Ok(0)",
    },
    ReadCase {
        about: "a third read that would fail, past the limit before it",
        name: "f",
        bytes: b"heyhey",
        most: 3,
        failing: &[3],
        limit: 4,
        gives: "Err(TooLong), then Err(Failed)",
    },
    ReadCase {
        about: "a second read that fails, within the limit",
        name: "f",
        bytes: b"heyhey",
        most: 3,
        failing: &[2],
        limit: 4,
        gives: "Err(ReadFault), then Ok(3)",
    },
    ReadCase {
        about: "a call that fails past the end",
        name: "f",
        bytes: b"hey",
        most: 3,
        failing: &[3],
        limit: 3,
        gives: "Ok([104, 101, 121]), then Err(Failed)",
    },
    ReadCase {
        about: "an open that fails",
        name: "f",
        bytes: b"hey",
        most: 3,
        failing: &[0],
        limit: 3,
        gives: "not open",
    },
    ReadCase {
        about: "a name that is missing",
        name: "g",
        bytes: b"hey",
        most: 3,
        failing: &[],
        limit: 3,
        gives: "not open",
    },
];

fn file_of(alloc: Global, bytes: &[u8]) -> Result<MemFile, AllocError> {
    let name = String::from_str(alloc, "f")?;
    let bytes = Vec::from_slice(alloc, bytes)?;
    Ok(MemFile { name, bytes })
}

fn files_of(alloc: Global, bytes: &[u8]) -> Result<Vec<MemFile>, AllocError> {
    let mut files = Vec::new(alloc);
    files.push(file_of(alloc, bytes)?)?;
    Ok(files)
}

fn source_of(alloc: Global, case: &ReadCase) -> Result<MemSource, AllocError> {
    let failing = Vec::from_slice(alloc, case.failing)?;
    let files = files_of(alloc, case.bytes)?;
    Ok(MemSource::new(files, failing, case.most.max(1)))
}

fn outcome_of_read(alloc: Global, case: &ReadCase) -> Result<String, AllocError> {
    let mut source = source_of(alloc, case)?;
    if source.open(case.name).is_err() {
        return String::from_str(alloc, "not open");
    }
    let all = read_all(alloc, &mut source, case.limit);
    let next = source.read(&mut [0; 4]);
    format!(in alloc; "{all:?}, then {next:?}")
}

#[test]
fn bytes_are_read(rt: HostRuntime) -> Result<(), Fail> {
    for (i, case) in READ_CASES.iter().enumerate() {
        let outcome = outcome_of_read(rt.alloc(), case)?;
        assert_gives(&rt, i, outcome.as_str(), case.gives, case.about);
    }
    Ok(())
}

// A text, and what writing it gives: the outcome, and what the sink has taken.
struct WriteCase {
    about: &'static str,
    bytes: &'static [u8],
    most: usize,
    failing: &'static [u64],
    gives: &'static str,
}

const WRITE_CASES: [WriteCase; 4] = [
    WriteCase {
        about: "no byte",
        bytes: b"",
        most: 100,
        failing: &[0],
        gives: "Ok(()) []",
    },
    WriteCase {
        about: "one byte a call",
        bytes: b"hey",
        most: 1,
        failing: &[],
        gives: "Ok(()) [104, 101, 121]",
    },
    WriteCase {
        about: "a second write that fails",
        bytes: b"hey!",
        most: 3,
        failing: &[1],
        gives: "Err(WriteFault { out: 3 }) [104, 101, 121]",
    },
    WriteCase {
        about: "a first write that fails",
        bytes: b"hey",
        most: 3,
        failing: &[0],
        gives: "Err(WriteFault { out: 0 }) []",
    },
];

fn outcome_of_write(alloc: Global, case: &WriteCase) -> Result<String, AllocError> {
    let failing = Vec::from_slice(alloc, case.failing)?;
    let mut sink = MemSink::new(alloc, failing, case.most.max(1));
    let end = write_all(&mut sink, case.bytes);
    format!(in alloc; "{end:?} {:?}", sink.taken())
}

#[test]
fn bytes_are_written(rt: HostRuntime) -> Result<(), Fail> {
    for (i, case) in WRITE_CASES.iter().enumerate() {
        let outcome = outcome_of_write(rt.alloc(), case)?;
        assert_gives(&rt, i, outcome.as_str(), case.gives, case.about);
    }
    Ok(())
}

// What becomes of a file that is read and then removed, and of a line to the standard output.
fn outcome_of_system(rt: &HostRuntime) -> Result<String, Fail> {
    let path = format!(in rt.alloc(); "/tmp/cf_io_file_{}", process::id(rt.process()))?;
    fs::write(rt, path.as_str(), "hey\n")?;
    let mut source = FileSource::new(rt);
    let opened = source.open(path.as_str());
    let all = read_all(rt.alloc(), &mut source, 4);
    fs::remove_file(rt, path.as_str())?;
    let again = source.open(path.as_str());
    let written = write_all(&mut StdSink::new(rt), b"a line by a sink\n");
    Ok(format!(in rt.alloc(); "{opened:?} {all:?} {again:?} {written:?}")?)
}

#[test]
fn bytes_of_the_system(rt: HostRuntime) -> Result<(), Fail> {
    let outcome = outcome_of_system(&rt)?;
    assert_gives(
        &rt,
        0,
        outcome.as_str(),
        "Ok(()) Ok([104, 101, 121, 10]) Err(Failed) Ok(())",
        "a file that is read and then removed, and a line to the standard output",
    );
    Ok(())
}
