//! The lines at the end: one for each object that is left, and the last one.
ghost use Rattle.std.specs.Prelude.{◌≡◌, length, IfOk};
ghost use Rattle.cf_model.specs.Journals.{After, IsLegal};
ghost use Rattle.cf_render.specs.Ends.{alive_in, AreOf, left_from, left_line, lines_of, owners_in, slots_in};
ghost use Rattle.cf_render.specs.Rendering.{end_lines, ending_word, last_line};

use crate::objects::{classes, what_is_left};
use crate::put::{put_decimal, put_words};
use crate::tally::{Tally, tallied};
use crate::word::{Name, Word};
use cf_graph::Edge;
use cf_ids::TypeId;
use cf_model::{Ending, Entry};
use cf_syntax::Script;
use std::alloc::{AllocError as NoMemory, Global};

/// How many entries there are, and how many objects were made, finalised and left.
#[derive(Clone, Copy)]
struct Counts {
    events: usize,
    objects: usize,
    finals: usize,
    alive: usize,
}

/// The line of an object that is left.
fn left_line(
    alloc: Global,
    script: &Script,
    number: usize,
    class: TypeId,
    tally: Tally,
) -> Result<Vec<u8>, NoMemory>
    ensures { IfOk result (λ l. l.items ≡ left_line script.now.classes number class tally.owners tally.slots) }
{
    let mut line = Vec::from_slice(alloc, b"alive #")?;
    put_decimal(&mut line, number as u64)?;
    let words = [
        Word::Named(Name::Class(class)),
        Word::Plain(b"owners"),
        Word::Number(tally.owners as u64),
        Word::Plain(b"slots"),
        Word::Number(tally.slots as u64),
    ];
    put_words(&mut line, script, &words)?;
    Ok(line)
}

/// The lines of the objects that are left.
fn left_lines(
    alloc: Global,
    script: &Script,
    classes: &[TypeId],
    alive: &[bool],
    tallies: &[Tally],
) -> Result<Vec<Vec<u8>>, NoMemory>
    requires alive { length alive.now ≡ length classes.now }
    requires tallies { length tallies.now ≡ length classes.now }
    ensures { IfOk result
        (λ ls. lines_of ls.items
        ≡ left_from script.now.classes 0 classes.now (alive_in alive.now) (owners_in tallies.now)
        (slots_in tallies.now)) }
{
    let mut lines = Vec::new(alloc);
    for number in 0..classes.len() {
        if alive[number] {
            let line = left_line(alloc, script, number, classes[number], tallies[number])?;
            lines.push(line)?;
        }
    }
    Ok(lines)
}

/// The word of an ending.
fn ending_word(ending: Ending) -> &'static [u8]
    ensures { result.now ≡ ending_word ending }
{
    match ending {
        Ending::Done => b"done",
        Ending::Limit => b"limit",
        Ending::Full => b"full",
        Ending::Stalled => b"stalled",
    }
}

/// The last line of a run.
fn last_line(
    alloc: Global,
    script: &Script,
    ending: Ending,
    counts: Counts,
) -> Result<Vec<u8>, NoMemory>
    ensures { IfOk result (λ l. l.items ≡ last_line ending counts.events counts.objects counts.finals counts.alive) }
{
    let mut line = Vec::from_slice(alloc, b"end")?;
    let words = [
        Word::Plain(ending_word(ending)),
        Word::Plain(b"events"),
        Word::Number(counts.events as u64),
        Word::Plain(b"objects"),
        Word::Number(counts.objects as u64),
        Word::Plain(b"finals"),
        Word::Number(counts.finals as u64),
        Word::Plain(b"alive"),
        Word::Number(counts.alive as u64),
    ];
    put_words(&mut line, script, &words)?;
    Ok(line)
}

/// The lines at the end of a journal, without line feeds: one for each object that is left, and the last one. The
/// edges are those after the journal, each as often, in any order.
pub fn end_lines(
    alloc: Global,
    script: &Script,
    journal: &[Entry],
    edges: &[Edge],
    ending: Ending,
) -> Result<Vec<Vec<u8>>, NoMemory>
    requires legal { IsLegal script.now journal.now }
    requires edges { AreOf edges.now (After script.now journal.now).edges }
    ensures { IfOk result (λ ls. lines_of ls.items
        ≡ end_lines script.now journal.now (After script.now journal.now).edges ending) }
{
    let classes = classes(alloc, script, journal)?;
    let left = what_is_left(alloc, classes.len(), journal)?;
    let tallies = tallied(alloc, classes.len(), edges)?;
    let mut lines = left_lines(alloc, script, &classes, &left.alive, &tallies)?;
    let counts = Counts {
        events: journal.len(),
        objects: classes.len(),
        finals: left.finals,
        alive: lines.len(),
    };
    let last = last_line(alloc, script, ending, counts)?;
    lines.push(last)?;
    Ok(lines)
}
