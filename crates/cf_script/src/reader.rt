//! The script of a text.
ghost use Rattle.std.specs.Prelude.{◌≤◌, ◌+◌, ◌<◌, ◌^◌, length, IfOk};
ghost use Rattle.cf_ids.specs.declared.limits.TheConstants.{SCRIPT_BYTES};
ghost use Rattle.cf_syntax.specs.Lines.{lines};
ghost use Rattle.cf_syntax.specs.Stage.{IsOfStage};
ghost use Rattle.cf_syntax.specs.Text.{start, read_from, script_of};
ghost use Rattle.cf_script.specs.Gives.{Gives, GivesFault};

use crate::block::Reader;
use crate::fault::{LineFault, ScriptFault};
use crate::lines::{is_utf8, next_line};
use crate::near::near_words;
use crate::threads::Threads;
use cf_syntax::{Refusal, Script};
use std::alloc::Global;

/// A line's fault with its number.
fn on_line(count: u32, fault: LineFault) -> ScriptFault
    requires { count + 1 < 2 ^ 32 }
    ensures { GivesFault count fault result }
{
    match fault {
        LineFault::Faulty(reason) => ScriptFault::Refused(Refusal {
            line: count + 1,
            reason,
        }),
        LineFault::NoRoom => ScriptFault::NoMemory,
    }
}

/// The script that bytes are the text of, in time that is linear in them. They are at most 1,048,576. `Refused` comes
/// exactly if they are the text of no script, unless memory runs out, and `NoMemory` for want of memory alone.
pub fn read_script(alloc: Global, bytes: &[u8]) -> Result<Script, ScriptFault>
    requires { length bytes.now ≤ SCRIPT_BYTES }
    ensures read { Gives result (script_of bytes.now) }
    ensures stage { IfOk result (λ s. IsOfStage s) }
{
    let Ok(mut reader) = Reader::new(alloc) else {
        return Err(ScriptFault::NoMemory);
    };
    let Ok(threads) = Threads::of_text(alloc, bytes) else {
        return Err(ScriptFault::NoMemory);
    };
    let mut found = Vec::new(alloc);
    // Where a text is UTF-8, each of its lines is.
    let is_known = is_utf8(bytes);
    let mut rest = bytes;
    while !rest.is_empty() {
        let near = near_words(&mut found, rest);
        let (line, after) = next_line(rest, near);
        let count = reader.count;
        if let Err(fault) = reader.after_line(
            alloc,
            &threads,
            &mut found,
            line,
            is_known,
            near.is_some(),
        ) {
            return Err(on_line(count, fault));
        }
        rest = after;
    }
    let count = reader.count;
    match reader.whole(alloc) {
        Ok(parts) => Ok(Script::new(parts)),
        Err(fault) => Err(on_line(count, fault)),
    }
}
