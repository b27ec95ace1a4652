//! Why a file of cases is not read.

use std::alloc::AllocError;
use thiserror::Error;

/// What is wrong in a line of a file of cases.
#[derive(Debug, Drop, Error)]
pub enum Fault {
    /// A percent sign begins neither two hexadecimal digits nor a number in braces.
    #[error("no such escape")]
    Escape,
    /// A number in braces is none, leaves its range, or has no column.
    #[error("no such number in braces")]
    Braces,
    /// The first word of a line is no directive.
    #[error("no such directive")]
    Directive,
    /// A number is none, leaves its range, or is below the least that may stand there.
    #[error("no such number")]
    Number,
    /// A line of a text stands outside a text.
    #[error("a line of no text")]
    Text,
    /// A line of `answers` has no ` => ` before its answer.
    #[error("no answer")]
    Answer,
    /// A word or an answer is not UTF-8.
    #[error("no UTF-8")]
    Utf8,
    /// A case has no name, no status, or nothing wanted.
    #[error("a case needs a name, a status, and what is written or answered")]
    Incomplete,
    /// There is no memory.
    #[error("out of memory")]
    NoMemory(#[from(alloc)] AllocError),
}
