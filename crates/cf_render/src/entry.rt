//! The lines of entries.
ghost use Rattle.std.specs.Prelude.{◌≡◌, [], ◌∷◌, ◌++◌, IfOk, OnOk};
ghost use Rattle.cf_model.specs.Runs.{is_seen};
ghost use Rattle.cf_render.specs.Rendering.{is_written, line};

use crate::entry_words::{action_words, answer_words};
use crate::put::{put_thread, put_words};
use cf_ids::Answer;
use cf_model::{Action, Entry};
use cf_syntax::Script;
use std::alloc::{AllocError as NoMemory, Global};

/// Puts the line of an entry after a text, without its line feed.
fn put_entry(text: &mut Vec<u8>, script: &Script, entry: &Entry) -> Result<(), NoMemory>
    ensures { OnOk result (text.new.items ≡ text.old.items ++ line script.now entry.now) }
{
    put_thread(text, entry.thread)?;
    put_words(text, script, &action_words(script, &entry.action))?;
    put_words(text, script, &answer_words(&entry.answer))?;
    Ok(())
}

/// Puts the line of an entry after a text, with its line feed. After `NoMemory` a part of it may stand there.
pub fn put_line(text: &mut Vec<u8>, script: &Script, entry: &Entry) -> Result<(), NoMemory>
    ensures { OnOk result (text.new.items ≡ text.old.items ++ (line script.now entry.now ++ 10 ∷ [])) }
{
    put_entry(text, script, entry)?;
    Ok(text.push(b'\n')?)
}

/// The line of an entry, without a line feed.
pub fn line(alloc: Global, script: &Script, entry: &Entry) -> Result<Vec<u8>, NoMemory>
    ensures { IfOk result (λ l. l.items ≡ line script.now entry.now) }
{
    let mut text = Vec::new(alloc);
    put_entry(&mut text, script, entry)?;
    Ok(text)
}

/// Whether an entry is one that a reader of the output sees: a call, the description of an object, what finalises
/// one, a run of an empty mode, and the end of a run.
fn is_seen(entry: &Entry) -> bool
    ensures { result ≡ is_seen entry.now.action entry.now.answer }
{
    match &entry.action {
        Action::Call { .. } | Action::Ran(_) => true,
        Action::Run { .. } => matches!(&entry.answer, Answer::Number(_)),
        _ => matches!(&entry.answer, Answer::Final(_) | Answer::Shown(_)),
    }
}

/// Whether the line of an entry is written: each is with `full`, and else only those that a reader sees.
pub fn is_written(full: bool, entry: &Entry) -> bool
    ensures { result ≡ is_written full entry.now }
{
    full || is_seen(entry)
}
