//! The program `cf_rows`: it runs the worked cases of its folder by the top call, over files and sinks in memory,
//! writes a line for each, and ends with status 0 if each is as its file says.
#![tactic(auto)]

mod answers;
mod case;
mod change;
mod direct;
mod fault;
mod file;
mod judged;
mod outcome;
mod row;
mod text;

use crate::case::Case;
use crate::change::CHANGES;
use crate::file::cases_of;
use crate::judged::{Judged, judge};
use crate::outcome::differences_of;
use crate::row::is_one_string_legal;
use std::process::ExitCode;
use std::{fs, io};

/// How many cases there were, how many of them did not come to what is wanted, and what was judged.
#[derive(Drop)]
struct Tally {
    cases: u64,
    differing: u64,
    judged: Judged,
}

impl Tally {
    // Counts a case.
    fn count(&mut self, differs: bool) {
        self.cases = self.cases.saturating_add(1);
        self.differing = self.differing.saturating_add(u64::from(differs));
    }
}

// Runs a case, and writes its line.
fn run_case(rt: &HostRuntime, file: &str, case: &Case, tally: &mut Tally) -> io::Result<()> {
    let differences = differences_of(rt.alloc(), case)?;
    let name = case.name.as_str();
    tally.count(!differences.is_empty());
    judge(rt, file, case, &mut tally.judged)?;
    if differences.is_empty() {
        println!(rt; "{file}: {name}")
    } else {
        println!(rt; "{file}: {name}: DIFFERS\n{differences}")
    }
}

// Runs the cases of a text. One that is not read counts as one that differs.
fn run_text(rt: &HostRuntime, file: &str, text: &str, tally: &mut Tally) -> io::Result<()> {
    let mut at = 0;
    match cases_of(rt.alloc(), text, &mut at) {
        Ok(cases) => {
            for case in &cases {
                run_case(rt, file, case, tally)?;
            }
            Ok(())
        }
        Err(fault) => {
            tally.count(true);
            println!(rt; "{file}, line {at}: {fault}")
        }
    }
}

// Runs the cases of a file. A file that cannot be read counts as a case that differs.
fn run_file(rt: &HostRuntime, file: &str, tally: &mut Tally) -> io::Result<()> {
    match fs::read_to_string(rt, file) {
        Ok(text) => run_text(rt, file, text.as_str(), tally),
        Err(error) => {
            tally.count(true);
            println!(rt; "{file}: {error}")
        }
    }
}

// Runs the cases of the files that the list names, one in each line.
fn run_list(rt: &HostRuntime, tally: &mut Tally) -> io::Result<()> {
    let list = fs::read_to_string(rt, "list")?;
    for file in list.lines() {
        run_file(rt, file, tally)?;
    }
    let cases = tally.cases;
    println!(rt; "{cases} cases")?;
    tell_judged(rt, &tally.judged)
}

// Tells how many journals were judged, and how many changed ones, by what was changed.
fn tell_judged(rt: &HostRuntime, judged: &Judged) -> io::Result<()> {
    let journals = judged.journals;
    println!(rt; "{journals} journals are legal")?;
    for (change, count) in CHANGES.iter().zip(judged.changed.iter()) {
        let words = change.words();
        println!(rt; "{count} journals with an entry {words}")?;
    }
    let legal = judged.legal;
    println!(rt; "{legal} changed journals are legal")
}

// Judges the journal of one string, and the same with `more` for `final`.
fn run_row(rt: &HostRuntime, tally: &mut Tally) -> io::Result<()> {
    for finalises in [true, false] {
        let words = if finalises { "`final`" } else { "`more`" };
        let found = match is_one_string_legal(rt.alloc(), finalises)? {
            Some(true) => "legal",
            Some(false) => "refused",
            None => "NOT READ",
        };
        println!(rt; "one string, made and released with {words}: {found}")?;
        if (found == "legal") != finalises {
            tally.judged.count_wrong();
        }
    }
    Ok(())
}

// Nothing was run; these changed journals are to be legal.
fn tally_of(rt: &HostRuntime) -> io::Result<Tally> {
    let listed = fs::read_to_string(rt, "legal")?;
    Ok(Tally {
        cases: 0,
        differing: 0,
        judged: Judged::new(listed),
    })
}

// Runs all cases, and tells whether each is as its file says and each journal is judged as it has to be.
fn run(rt: &HostRuntime) -> io::Result<bool> {
    let mut tally = tally_of(rt)?;
    run_list(rt, &mut tally)?;
    run_row(rt, &mut tally)?;
    Ok(tally.differing == 0 && tally.judged.is_right())
}

fn main(rt: HostRuntime) -> ExitCode {
    match run(&rt) {
        Ok(true) => ExitCode::SUCCESS,
        _ => ExitCode::FAILURE,
    }
}
