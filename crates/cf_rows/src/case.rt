//! A case: what is run, and what is wanted of it.

use crate::fault::Fault;
use crate::text::{Line, put_lines, text_line, word_of};
use std::alloc::Global;

// A text whose lines come now.
#[derive(Clone, Copy)]
enum Section {
    Nothing,
    Script,
    Answers,
    Written,
}

/// A command over one file, and what it has to come to. What a directive says takes the place of what it said before.
#[derive(Drop)]
pub struct Case {
    alloc: Global,
    section: Section,
    columns: Vec<Vec<u8>>,
    /// What it shows, in a few words.
    pub name: String,
    /// The words after the program's name.
    pub words: Vec<String>,
    /// The bytes of the file `f`, the only one that there is.
    pub script: Vec<u8>,
    /// The calls of `open` and `read`, counted together from 0, that fail.
    pub failing_reads: Vec<u64>,
    /// The calls of `write`, counted from 0, that fail.
    pub failing_writes: Vec<u64>,
    /// The most bytes that one call gives or takes. The case is run once with each of these.
    pub sizes: Vec<u64>,
    /// The exit status, where it is told.
    pub status: Option<u64>,
    /// Whether each entry has its line.
    pub is_full: bool,
    /// The most entries of the journal, where that is told.
    pub limit: Option<u64>,
    /// How many entries the journal has, where that is told.
    pub entries: Option<u64>,
    /// Each entry of the journal and its answer, a line each; empty where they are not told.
    pub answers: Vec<u8>,
    /// The bytes that are written.
    pub written: Vec<u8>,
    /// Whether they are told.
    pub is_written_told: bool,
}

impl Case {
    /// A case of which nothing is told.
    pub fn new(alloc: Global) -> Result<Case, Fault> {
        Ok(Case {
            alloc,
            section: Section::Nothing,
            columns: Vec::new(alloc),
            name: String::new(alloc),
            words: words_of(alloc, "run --serial f", &[])?,
            script: Vec::new(alloc),
            failing_reads: Vec::new(alloc),
            failing_writes: Vec::new(alloc),
            sizes: vec![in alloc; 4_096]?,
            status: None,
            is_full: false,
            limit: None,
            entries: None,
            answers: Vec::new(alloc),
            written: Vec::new(alloc),
            is_written_told: false,
        })
    }

    /// Whether a name, a status, and something wanted are told.
    pub fn is_complete(&self) -> bool {
        let is_wanted = self.is_written_told || !self.answers.is_empty();
        is_wanted && !self.name.is_empty() && self.status.is_some()
    }

    /// Takes what a line of a file says. An empty line and a comment say nothing.
    pub fn put(&mut self, line: &str) -> Result<(), Fault> {
        if line.trim().is_empty() || line.starts_with('#') {
            return Ok(());
        }
        match text_line(line) {
            Some(line) => self.put_text(line),
            None => {
                self.section = Section::Nothing;
                let (directive, value) = line.split_once(' ').unwrap_or((line, ""));
                self.put_directive(directive, value)
            }
        }
    }

    // Takes a line of a text.
    fn put_text(&mut self, line: Line) -> Result<(), Fault> {
        match self.section {
            Section::Nothing => Err(Fault::Text),
            Section::Script => put_lines(self.alloc, &mut self.script, line, &self.columns),
            Section::Answers => self.put_answer(line),
            Section::Written => put_lines(self.alloc, &mut self.written, line, &self.columns),
        }
    }

    // Takes a line of the script with its answer.
    fn put_answer(&mut self, line: Line) -> Result<(), Fault> {
        let Some((raw, _)) = line.raw.rsplit_once(" => ") else {
            return Err(Fault::Answer);
        };
        let times = line.times;
        let statement = Line { times, raw };
        put_lines(self.alloc, &mut self.script, statement, &self.columns)?;
        put_lines(self.alloc, &mut self.answers, line, &self.columns)
    }

    // Takes a directive that begins something.
    fn put_directive(&mut self, directive: &str, value: &str) -> Result<(), Fault> {
        match directive {
            "case" => self.name = String::from_str(self.alloc, value)?,
            "row" => self.put_row(value)?,
            "script" => {
                self.script.clear();
                self.section = Section::Script;
            }
            "answers" => {
                self.answers.clear();
                self.section = Section::Answers;
            }
            "journal" => self.is_full = true,
            "written" => {
                self.written.clear();
                self.is_written_told = true;
                self.section = Section::Written;
            }
            _ => self.put_value(directive, value)?,
        }
        Ok(())
    }

    // Takes a directive that has a value.
    fn put_value(&mut self, directive: &str, value: &str) -> Result<(), Fault> {
        match directive {
            "words" => self.words = words_of(self.alloc, value, &self.columns)?,
            "status" => self.status = Some(number_of(value)?),
            "entries" => self.entries = Some(number_of(value)?),
            "limit" => self.limit = Some(number_of(value)?),
            "fail-read" => self.failing_reads = numbers_of(self.alloc, value, 0)?,
            "fail-write" => self.failing_writes = numbers_of(self.alloc, value, 0)?,
            "bytes-a-call" => self.sizes = numbers_of(self.alloc, value, 1)?,
            _ => return Err(Fault::Directive),
        }
        Ok(())
    }

    // Takes a row: its name, and then its columns.
    fn put_row(&mut self, row: &str) -> Result<(), Fault> {
        for (place, cell) in row.split(" | ").enumerate() {
            if place == 0 {
                self.name = String::from_str(self.alloc, cell)?;
            } else {
                let column = word_of(self.alloc, cell, &[])?;
                self.columns.push(column)?;
            }
        }
        Ok(())
    }
}

// The number that a value is.
fn number_of(value: &str) -> Result<u64, Fault> {
    match value.parse::<u64>() {
        Ok(number) => Ok(number),
        Err(_) => Err(Fault::Number),
    }
}

// The numbers that stand in a value, each at least so large.
fn numbers_of(alloc: Global, value: &str, least: u64) -> Result<Vec<u64>, Fault> {
    let mut numbers = Vec::new(alloc);
    for word in value.split_whitespace() {
        let number = number_of(word)?;
        if number < least {
            return Err(Fault::Number);
        }
        numbers.push(number)?;
    }
    Ok(numbers)
}

// The words of a command line.
fn words_of(alloc: Global, value: &str, columns: &[Vec<u8>]) -> Result<Vec<String>, Fault> {
    let mut words = Vec::new(alloc);
    for raw in value.split_whitespace() {
        let bytes = word_of(alloc, raw, columns)?;
        match str::from_utf8(&bytes) {
            Ok(word) => words.push(String::from_str(alloc, word)?)?,
            Err(_) => return Err(Fault::Utf8),
        }
    }
    Ok(words)
}
