//! A journal as lines: each entry and its answer, in the words in which cases have them.

use cf_ids::Answer;
use cf_run::{Action, Entry};
use std::alloc::{AllocError, Global};

/// The entries of a journal and their answers, a line each. An entry that a statement makes has the line that `wanted`
/// has there; another one is a comment.
pub fn answers_of(alloc: Global, journal: &[Entry], wanted: &str) -> Result<String, AllocError> {
    let mut text = String::new(alloc);
    let mut lines = wanted.lines();
    for entry in journal {
        let line = lines.next().unwrap_or("");
        let action = action_word(alloc, &entry.action, statement_in(line))?;
        let answer = answer_word(alloc, &entry.answer)?;
        text.push_str(action.as_str())?;
        text.push_str(" => ")?;
        text.push_str(answer.as_str())?;
        text.push_str("\n")?;
    }
    Ok(text)
}

// What stands before the answer of a line, unless that is a comment.
fn statement_in(line: &str) -> &str {
    match line.rsplit_once(" => ") {
        Some((statement, _)) if !statement.starts_with('#') => statement,
        _ => "a statement",
    }
}

// An action: a comment where no statement makes it, and else the statement.
fn action_word(alloc: Global, action: &Action, statement: &str) -> Result<String, AllocError> {
    match action {
        Action::Owed(object) => format!(in alloc; "# release {object}"),
        Action::DropSlot {
            body,
            place,
            object,
        } => format!(in alloc; "# drop {body} {place} {object}"),
        _ => String::from_str(alloc, statement),
    }
}

// An answer in words.
fn answer_word(alloc: Global, answer: &Answer) -> Result<String, AllocError> {
    match answer {
        Answer::Object(object) => object.to_string(alloc),
        Answer::Final(class) => format!(in alloc; "final {}", class.0),
        Answer::Number(value) => value.to_string(alloc),
        Answer::Shown(description) => String::from_utf8_lossy(alloc, description.as_slice()),
        _ => String::from_str(alloc, plain_word(answer)),
    }
}

// An answer that is neither an object, a class, a description nor a number.
fn plain_word(answer: &Answer) -> &'static str {
    match answer {
        Answer::Ok => "ok",
        Answer::More => "more",
        Answer::Skip => "skip",
        Answer::Lossy => "lossy",
        Answer::Range => "range",
        Answer::Split => "split",
        _ => member_word(answer),
    }
}

// An answer of a collection or of a taking form that is no object.
fn member_word(answer: &Answer) -> &'static str {
    match answer {
        Answer::Nil => "nil",
        Answer::Added => "added",
        Answer::Changed => "changed",
        Answer::Present => "present",
        Answer::Absent => "absent",
        Answer::Empty => "empty",
        _ => "another",
    }
}
