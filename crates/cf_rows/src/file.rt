//! The cases of a file.

use crate::case::Case;
use crate::fault::Fault;
use std::alloc::Global;

// A line of a file.
#[derive(Clone, Copy)]
struct Numbered<'a> {
    // Its number, from 1 on.
    at: usize,
    // What it says, without its end.
    text: &'a str,
}

/// The cases of a file, in order. What stands before the first is a part of each, after the line that begins it. `at`
/// is the number of the line that was read last.
pub fn cases_of(alloc: Global, text: &str, at: &mut usize) -> Result<Vec<Case>, Fault> {
    let mut cases = Vec::new(alloc);
    let mut shared = Vec::new(alloc);
    let mut own = Vec::new(alloc);
    for (place, text) in text.lines().enumerate() {
        let begins = text.starts_with("case ") || text.starts_with("row ");
        if begins && !own.is_empty() {
            cases.push(case_of(alloc, &shared, &own, at)?)?;
            own.clear();
        }
        let at = place.saturating_add(1);
        if begins || !own.is_empty() {
            own.push(Numbered { at, text })?;
        } else {
            shared.push(Numbered { at, text })?;
        }
    }
    cases.push(case_of(alloc, &shared, &own, at)?)?;
    Ok(cases)
}

// The case of which these lines speak, the first of which begins it.
fn case_of(
    alloc: Global,
    shared: &[Numbered],
    own: &[Numbered],
    at: &mut usize,
) -> Result<Case, Fault> {
    let Some((first, others)) = own.split_first() else {
        return Err(Fault::Incomplete);
    };
    let mut case = Case::new(alloc)?;
    *at = first.at;
    case.put(first.text)?;
    for line in shared.iter().chain(others) {
        *at = line.at;
        case.put(line.text)?;
    }
    if case.is_complete() {
        Ok(case)
    } else {
        Err(Fault::Incomplete)
    }
}
