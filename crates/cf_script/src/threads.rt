//! The names of a text's threads, which a statement may name before the lines of the threads come.
ghost use Rattle.std.specs.Prelude.{◌≡◌, ◌<◌, ◌++◌, [], IfOk, IfSome, IsTrue, OnOk, length, position, take};
ghost use Rattle.std.specs.Str.{bytes_eq};
ghost use Rattle.cf_syntax.specs.Lines.{lines};
ghost use Rattle.cf_syntax.specs.Words.{words};
ghost use Rattle.cf_syntax.specs.FormStatements.{thread_named};
ghost use Rattle.cf_syntax.specs.Text.{thread_name, named_threads};
ghost use Rattle.cf_script.specs.TableViews.{name_list};

use crate::fault::LineFault;
use crate::lines::next_line;
use crate::words::{is, skip_blanks, split_words, word_at};
use cf_ids::{THREADS, ThreadId};
use memchr::memmem;
use std::alloc::{AllocError, Global};
use std::marker::Model;

/// The most threads of a script after setup.
const NAMED: usize = THREADS - 1;

/// Whether a line may begin a thread: its first word begins with the same letter.
fn may_begin_thread(line: &[u8]) -> bool
    ensures { (IsTrue result → ⊥) → thread_name (words line.now) ≡ [] }
{
    match skip_blanks(line) {
        [first, ..] => *first == b't',
        [] => false,
    }
}

/// The name of the thread that a line begins, if it begins one. The words go in place of what `found` has.
fn thread_name<'a>(
    found: &mut Vec<&'a [u8]>,
    line: &'a [u8],
) -> Result<Option<&'a [u8]>, AllocError>
    ensures { IfOk result (λ name. name_list name ≡ thread_name (words line.now)) }
{
    if !may_begin_thread(line) {
        return Ok(None);
    }
    match split_words(found, line) {
        Ok(_) if is(word_at(found.as_slice(), 0), b"thread") => {
            Ok(Some(word_at(found.as_slice(), 1)))
        }
        Ok(_) => Ok(None),
        Err(LineFault::Faulty(_)) => Ok(None),
        Err(LineFault::NoRoom) => Err(AllocError),
    }
}

/// The place of a name.
fn place_of(names: &[&[u8]], name: &[u8]) -> Option<usize>
    ensures place { result ≡ position (λ n. bytes_eq name.now n.now) names.now }
    ensures within { IfSome result (λ i. i < length names.now) }
{
    names.iter().position(|own| is(name, own))
}

/// The names of a text's threads in order.
#[derive(Drop)]
pub(crate) struct Threads<'a> {
    names: Vec<&'a [u8]>,
}

impl<'a> Model for Threads<'a> {
    ghost use Rattle.std.specs.Prelude.{◌≤◌, ℕ, List, length};
    ghost use Rattle.cf_script.specs.Views.{lent};

    ghost Value = { List (List ℕ) };

    ghost view = { λ t. lent t.names.items };

    ghost invariant = { λ t. length t.names.items ≤ 63 };
}

impl<'a> Threads<'a> {
    /// The number of the thread of a name.
    pub fn named(&self, name: &[u8]) -> Option<ThreadId>
        ensures { result ≡ thread_named self.now name.now }
    {
        let place = place_of(self.names.as_slice(), name)?;
        Some(ThreadId(place as u8 + 1))
    }

    /// The name of the thread that a line begins goes after the others, if there is room.
    fn note(&mut self, found: &mut Vec<&'a [u8]>, line: &'a [u8]) -> Result<(), AllocError>
        ensures { OnOk result (self.new ≡ take 63 (self.old ++ thread_name (words line.now))) }
    {
        if self.names.len() == NAMED {
            return Ok(());
        }
        if let Some(name) = thread_name(found, line)? {
            self.names.push(name)?;
        }
        Ok(())
    }

    /// The names of the threads that the lines of a text begin.
    fn of_lines(alloc: Global, text: &'a [u8]) -> Result<Threads<'a>, AllocError>
        ensures { IfOk result (λ threads. threads ≡ named_threads (lines text.now)) }
    {
        let mut threads = Threads {
            names: Vec::new(alloc),
        };
        let mut found = Vec::new(alloc);
        let mut rest = text;
        while !rest.is_empty() {
            let (line, after) = next_line(rest, None);
            threads.note(&mut found, line)?;
            rest = after;
        }
        Ok(threads)
    }

    /// The names of the threads of a text. Most texts have none, and then the word stands nowhere.
    pub fn of_text(alloc: Global, text: &'a [u8]) -> Result<Threads<'a>, AllocError>
        ensures { IfOk result (λ threads. threads ≡ named_threads (lines text.now)) }
    {
        if memmem::find(text, b"thread").is_none() {
            return Ok(Threads {
                names: Vec::new(alloc),
            });
        }
        Threads::of_lines(alloc, text)
    }
}
