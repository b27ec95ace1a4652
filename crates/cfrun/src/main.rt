//! The program `cfrun`: it hands its words, the system's files and standard output to the top call.
#![tactic(auto)]

use cf_io::{FileSource, StdSink};
use cf_run::cfrun_serial;
use std::env;
use std::io::{self, ErrorKind};
use std::process::ExitCode;

// Does what the words after the program's name say, and gives the status.
fn run(rt: &HostRuntime) -> io::Result<u8> {
    let mut args = Vec::new(rt.alloc());
    for arg in env::args(rt)?.skip(1) {
        args.push(arg)?;
    }
    let mut words = Vec::new(rt.alloc());
    for arg in &args {
        words.push(arg.as_str())?;
    }
    let mut source = FileSource::new(rt);
    let mut sink = StdSink::new(rt);
    Ok(cfrun_serial(rt.alloc(), &words, &mut source, &mut sink).status)
}

fn main(rt: HostRuntime) -> ExitCode {
    match run(&rt) {
        Ok(status) => ExitCode::from(status),
        Err(error) if error.kind() == ErrorKind::OutOfMemory => ExitCode::from(6),
        Err(_) => ExitCode::from(1),
    }
}
