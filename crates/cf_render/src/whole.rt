//! The rendering of a whole: the lines of its entries, and those at the end.
ghost use Rattle.std.specs.Prelude.{◌≡◌, ◌++◌, IfOk, OnOk};
ghost use Rattle.cf_model.specs.Journals.{After, IsLegal};
ghost use Rattle.cf_render.specs.Ends.{AreOf, lines_of};
ghost use Rattle.cf_render.specs.Rendering.{entry_lines, rendering, text_of_lines};

use crate::ends::end_lines;
use crate::entry::{is_written, put_line};
use cf_graph::Edge;
use cf_model::{Ending, Entry};
use cf_syntax::Script;
use std::alloc::{AllocError as NoMemory, Global};

/// Puts the lines of entries after a text, each ended by a line feed.
fn put_entries(
    text: &mut Vec<u8>,
    script: &Script,
    journal: &[Entry],
    full: bool,
) -> Result<(), NoMemory>
    ensures { OnOk result
        (text.new.items ≡ text.old.items ++ text_of_lines (entry_lines script.now full journal.now)) }
{
    for entry in journal {
        if is_written(full, entry) {
            put_line(text, script, entry)?;
        }
    }
    Ok(())
}

/// Puts lines after a text, each ended by a line feed.
fn put_lines(text: &mut Vec<u8>, lines: &[Vec<u8>]) -> Result<(), NoMemory>
    ensures { OnOk result (text.new.items ≡ text.old.items ++ text_of_lines (lines_of lines.now)) }
{
    for line in lines {
        text.extend_from_slice(line)?;
        text.push(b'\n')?;
    }
    Ok(())
}

/// What is written of a journal with its ending, each line ended by a line feed. The edges are those after the
/// journal, each as often, in any order.
pub fn render(
    alloc: Global,
    script: &Script,
    journal: &[Entry],
    edges: &[Edge],
    ending: Ending,
    full: bool,
) -> Result<Vec<u8>, NoMemory>
    requires legal { IsLegal script.now journal.now }
    requires edges { AreOf edges.now (After script.now journal.now).edges }
    ensures { IfOk result (λ text. text.items ≡ rendering script.now journal.now ending full) }
{
    let mut text = Vec::new(alloc);
    put_entries(&mut text, script, journal, full)?;
    let lines = end_lines(alloc, script, journal, edges, ending)?;
    put_lines(&mut text, &lines)?;
    Ok(text)
}
