//! What a thread of a world does next is found.
ghost use Rattle.std.specs.Prelude.{◌≡◌, ℕ, ◌+◌, ◌<◌, ◌≤◌, Some, length, if◌then◌else◌};
ghost use Rattle.cf_ids.specs.declared.limits.TheConstants.{LARGEST_LIMIT};
ghost use Rattle.cf_next.specs.Facts.{Facts as Known};
ghost use Rattle.cf_next.specs.Stands.{Stand};
ghost use Rattle.cf_next.specs.Steps.{IsStep, demand_of};
ghost use Rattle.cf_syntax.specs.declared.script.Script.{Script as ScriptValue};
ghost use Rattle.cf_model.specs.Journals.{makes_line};
ghost use Rattle.cf_world.specs.Grounds.{state_of};
ghost use Rattle.cf_world.specs.Begun.{AreFrames, IsLooked};
ghost use Rattle.cf_scene.specs.Needs.{acts_on_loops};
ghost use Rattle.cf_world.specs.Kept.{IsKept, IsPlaced};
ghost use Rattle.cf_world.specs.declared.found.Found.TheVariants as kept;

use crate::found::{Found, Reserved};
use crate::ground::Ground;
use crate::next::Halt;
use cf_ids::ThreadId;
use cf_next::{Frames, Step, Used};
use cf_scene::acts_on_loops;
use cf_syntax::Statement;

/// Looks at what a thread does next, and keeps it, or tells why it has no action that it may do. `limit` is that of the
/// journal.
#[inline(always)]
pub(crate) fn look(
    ground: &Ground,
    frames: &[Frames],
    limit: u32,
    t: ThreadId,
    kept: &mut Reserved,
) -> Result<(), Halt>
    requires thread { t < ground.now.script.thread_count }
    requires frames { AreFrames ground.now.script (state_of ground.now) frames.now }
    requires most { limit ≤ LARGEST_LIMIT }
    requires room { limit ≤ length ground.now.journal + ground.now.journal_room }
    ensures { IsLooked ground.now limit t result kept.new }
{
    let flags = ground.flags(t);
    if !flags.is_started {
        return Err(Halt::Waiting);
    }
    let script = ground.script();
    let frames = &frames[t.0 as usize];
    let _ = frames.depth();
    if frames.is_done() {
        return Err(Halt::Done);
    }
    if flags.is_asleep() {
        return Err(Halt::Asleep);
    }
    if limit as usize <= ground.journal.len() {
        return Err(Halt::Limit);
    }
    let Some(step) = frames.step(script, ground) else {
        return Err(Halt::Done);
    };
    if ground.is_full() && makes_object(&step) {
        return Err(Halt::Full);
    }
    kept.thread = t;
    kept.found = found_of(&step, frames.block(script));
    kept.action = frames.action(script, ground, &step);
    Ok(())
}

/// Whether what a thread does next makes an object, or may make one.
fn makes_object(step: &Step) -> bool
    ensures { result ≡ makes_line (Some (demand_of step.now)) }
{
    match step {
        Step::Says { statement, .. } => statement.makes_object(),
        _ => false,
    }
}

/// What a thread does next, as it is kept; `block` is the number of the block of its innermost frame.
fn found_of(step: &Step, block: u16) -> Found
    ensures { (s : ScriptValue) (facts : Known) (t : ℕ) (stand : Stand) → IsStep s facts t stand step.now
        → IsPlaced s block step.now → IsKept s facts t stand result }
{
    match step {
        Step::Begins => Found::Begins,
        Step::Claims { place, variable } => Found::Claims {
            place: *place,
            variable: *variable,
        },
        Step::Says {
            statement,
            used,
            number,
        } => said(statement, block, *number, *used),
        Step::Packs {
            thread,
            place,
            variable,
        } => Found::Packs {
            thread: *thread,
            place: *place,
            variable: *variable,
        },
        Step::Ends => Found::Ends,
        Step::Returns => Found::Returns,
        Step::Owes { object, left } => Found::Owes {
            object: *object,
            left: *left,
        },
        Step::Spends { item, left } => Found::Spends {
            item: *item,
            left: *left,
        },
        Step::Drops {
            body,
            place,
            object,
            left,
        } => Found::Drops {
            body: *body,
            place: *place,
            object: *object,
            left: *left,
        },
        Step::Calls {
            callee,
            handler,
            info,
            left,
        } => Found::Calls {
            callee: *callee,
            handler: *handler,
            info: *info,
            left: *left,
        },
        Step::Enters(phase) => Found::Enters(*phase),
        Step::Closes => Found::Closes,
    }
}

/// A statement, as it is kept.
fn said(statement: &Statement, block: u16, number: u32, used: Used) -> Found
    ensures { result ≡ (if acts_on_loops statement.now then kept.Deals block number used else kept.Says block number used) }
{
    if acts_on_loops(statement) {
        Found::Deals {
            block,
            number,
            used,
        }
    } else {
        Found::Says {
            block,
            number,
            used,
        }
    }
}
