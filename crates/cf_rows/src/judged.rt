//! The journals of cases are judged by the second implementation, and so are journals in which one thing is changed.

use crate::case::Case;
use crate::change::{CHANGES, Change, change_at, is_beginning_without, put_back};
use crate::direct::run_of_script;
use cf_machine::replays;
use cf_run::{Ending, Entry};
use cf_syntax::Script;
use std::alloc::{AllocError, Global};
use std::io;

// A longer journal is cut there before it is judged.
const LONGEST: usize = 10_000;

// A longer journal is judged as it is, and not changed.
const LONGEST_CHANGED: usize = 16;

/// What was judged, and how much of it was not as it has to be.
#[derive(Drop)]
pub struct Judged {
    /// The journals of cases.
    pub journals: u64,
    /// Those that are changed, by what is changed.
    pub changed: [u64; 7],
    /// Those that are changed and legal.
    pub legal: u64,
    /// Those of them that are listed.
    pub met: u64,
    /// Those that are not as they have to be.
    pub wrong: u64,
    /// The changed journals of several threads that are legal, with the reason, a line each.
    pub listed: String,
}

impl Judged {
    /// Nothing was judged.
    pub fn new(listed: String) -> Judged {
        Judged {
            journals: 0,
            changed: [0; 7],
            legal: 0,
            met: 0,
            wrong: 0,
            listed,
        }
    }

    // The reason for which a changed journal of a case is listed as legal.
    fn reason(&self, name: &str) -> Option<&str> {
        for line in self.listed.lines() {
            if let Some((listed, reason)) = line.split_once(" | ")
                && listed == name
            {
                return Some(reason);
            }
        }
        None
    }

    /// Whether each journal is as it has to be, and each that is listed was met.
    pub fn is_right(&self) -> bool {
        self.wrong == 0 && self.met == self.listed.lines().count() as u64
    }

    /// Counts a journal that is not as it has to be.
    pub fn count_wrong(&mut self) {
        self.wrong = self.wrong.saturating_add(1);
    }

    // Counts a changed journal.
    fn count(&mut self, kind: usize) {
        if let Some(count) = self.changed.get_mut(kind) {
            *count = count.saturating_add(1);
        }
    }
}

// A change of one entry of a case's journal.
#[derive(Clone, Copy)]
struct Trial<'a> {
    file: &'a str,
    case: &'a str,
    place: usize,
    kind: usize,
    change: Change,
}

/// Judges the journal of a case, its first entries if it is a long one, and changes of it.
pub fn judge(rt: &HostRuntime, file: &str, case: &Case, judged: &mut Judged) -> io::Result<()> {
    let Some(ran) = run_of_script(rt.alloc(), &case.script, LONGEST as u64)? else {
        return Ok(());
    };
    if !matches!(ran.ending, Ending::Done | Ending::Limit) {
        return Ok(());
    }
    let mut entries = ran.journal;
    let script = ran.script.script();
    let name = case.name.as_str();
    judged.journals = judged.journals.saturating_add(1);
    if !replays_short(rt.alloc(), script, entries.as_slice())? {
        judged.count_wrong();
        println!(rt; "{file}: {name}: REFUSED")?;
    }
    if entries.len() > LONGEST_CHANGED {
        return Ok(());
    }
    for (kind, change) in CHANGES.iter().copied().enumerate() {
        for place in 0..entries.len() {
            let trial = Trial {
                file,
                case: name,
                place,
                kind,
                change,
            };
            judge_change(rt, script, &mut entries, trial, judged)?;
        }
    }
    Ok(())
}

// Whether a journal is legal; none is longer than a run may be.
fn replays_short(alloc: Global, script: &Script, entries: &[Entry]) -> Result<bool, AllocError> {
    if entries.len() > LONGEST.saturating_add(1) {
        return Ok(false);
    }
    replays(alloc, script, entries)
}

// Judges a changed journal, and puts back what was changed.
fn judge_change(
    rt: &HostRuntime,
    script: &Script,
    entries: &mut Vec<Entry>,
    trial: Trial,
    judged: &mut Judged,
) -> io::Result<()> {
    let is_beginning = matches!(trial.change, Change::LeftOut)
        && is_beginning_without(entries.as_slice(), trial.place);
    let Some(back) = change_at(entries, trial.place, trial.change)? else {
        return Ok(());
    };
    let is_legal = replays_short(rt.alloc(), script, entries.as_slice())?;
    put_back(entries, trial.place, back)?;
    tell(rt, trial, is_beginning, is_legal, judged)
}

// Tells and counts what a changed journal came to.
fn tell(
    rt: &HostRuntime,
    trial: Trial,
    is_beginning: bool,
    is_legal: bool,
    judged: &mut Judged,
) -> io::Result<()> {
    let Trial {
        file,
        case,
        place,
        kind,
        change,
    } = trial;
    judged.count(kind);
    if is_legal {
        judged.legal = judged.legal.saturating_add(1);
    }
    if is_beginning && is_legal {
        return Ok(());
    }
    let words = change.words();
    let name = format!(in rt.alloc(); "{file}: {case}: entry {place} {words}")?;
    let listed = judged.reason(name.as_str()).is_some();
    if (is_beginning || listed) != is_legal {
        judged.count_wrong();
        let found = if is_legal { "LEGAL" } else { "REFUSED" };
        return println!(rt; "{name}: {found}");
    }
    if listed {
        judged.met = judged.met.saturating_add(1);
    }
    match judged.reason(name.as_str()) {
        Some(reason) => println!(rt; "{name}: legal, {reason}"),
        None => Ok(()),
    }
}
