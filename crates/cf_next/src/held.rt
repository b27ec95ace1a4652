//! What a thread has references to, by where it stands.
ghost use Rattle.std.specs.Prelude.{◌≡◌, ℕ, ◌<◌, ◌≤◌, ◌++◌, ◌∷◌, [], None, length, take, replicate, OnOk};
ghost use Rattle.cf_ids.specs.declared.limits.TheConstants.{VARIABLES};
ghost use Rattle.cf_syntax.specs.BlockLines.{line_ownership};
ghost use Rattle.cf_syntax.specs.Counting.{Counted};
ghost use Rattle.cf_next.specs.Advance.{kind_item};
ghost use Rattle.cf_next.specs.Demands.{frame_lines};
ghost use Rattle.cf_next.specs.Held.{HasVariables, below, copies, counted_objects, depth_objects, frame_at, frames_objects, held_objects, owed_objects};
ghost use Rattle.cf_next.specs.Lines.{line_of};
ghost use Rattle.cf_next.specs.Stands.{look};
ghost use Rattle.cf_next.specs.Views.{block_in, kind_of, work_of, works_of};

use crate::frames::Frames;
use crate::lines::{Line, kind_line};
use crate::object::MaybeObject;
use crate::parts::{Kind, Work};
use crate::stack::{Stack, fill, no_cells};
use cf_ids::{ObjId, VARIABLES, VarId};
use cf_syntax::{Counts, Ownership, Script};
use std::alloc::AllocError as NoMemory;

impl Frames {
    /// Appends the objects to which the frames and the work have references, each as often as they have: those of the
    /// outermost frame first.
    pub fn held(&self, script: &Script, out: &mut Vec<ObjId>) -> Result<(), NoMemory>
        requires { script.now.thread_count ≤ 64 }
        ensures objects { OnOk result (out.new.items ≡ out.old.items ++ held_objects script.now self.now.stand) }
        ensures variables { OnOk result (HasVariables self.now.stand.frames) }
    {
        add_frames(out, script, &self.stack)?;
        add_owed(out, self.work.as_slice())
    }
}

/// Appends what all frames have references to, the outermost first.
fn add_frames(out: &mut Vec<ObjId>, script: &Script, stack: &Stack) -> Result<(), NoMemory>
    requires { script.now.thread_count ≤ 64 }
    ensures objects { OnOk result (out.new.items ≡ out.old.items ++ frames_objects script.now stack.now.frames) }
    ensures variables { OnOk result (HasVariables stack.now.frames) }
{
    for depth in 0..stack.count() {
        add_frame(out, script, stack, depth)?;
    }
    Ok(())
}

/// Appends what the frame has references to that so many others are below.
fn add_frame(
    out: &mut Vec<ObjId>,
    script: &Script,
    stack: &Stack,
    depth: usize,
) -> Result<(), NoMemory>
    requires threads { script.now.thread_count ≤ 64 }
    requires there { depth < length stack.now.frames }
    ensures objects { OnOk result (out.new.items ≡ out.old.items ++ depth_objects script.now stack.now.frames depth) }
    ensures variables { (v : ℕ) → VARIABLES ≤ v → look v (frame_at stack.now.frames depth).bindings ≡ None }
{
    let frame = stack.frame(depth);
    let counts = count_lines(script, &frame.kind, frame.number);
    let mut table = no_cells();
    fill(&mut table, stack.bound(depth));
    add_variables(out, &table, &counts)?;
    add_variable(out, item(&frame.kind), 1)
}

/// The item that is called in a frame, if one is.
fn item(kind: &Kind) -> Option<ObjId>
    ensures { result ≡ kind_item (kind_of kind.now) }
{
    match kind {
        Kind::Handler { callee, .. } => callee.item(),
        _ => None,
    }
}

/// What a line does to the count of a variable.
fn ownership(line: &Line) -> Ownership
    ensures { result ≡ line_ownership (line_of line.now) }
{
    match line {
        Line::Begins => Ownership::Binds(VarId(0)),
        Line::Claims { variable, .. } => Ownership::Binds(*variable),
        Line::Says(statement) => statement.ownership(),
        Line::Packs { variable, .. } => match variable {
            Some(variable) => Ownership::Releases(*variable),
            None => Ownership::Keeps,
        },
    }
}

/// The counts of the first lines of a frame's block, so many.
fn count_lines(script: &Script, kind: &Kind, number: u32) -> Counts
    requires { script.now.thread_count ≤ 64 }
    ensures { Counted result (take number (frame_lines script.now (kind_of kind.now) (block_in kind.now))) }
{
    let mut counts = Counts::new();
    for k in 0..number as usize {
        if let Some(line) = &kind_line(script, kind, k) {
            counts.count(ownership(line));
        }
    }
    counts
}

/// Appends an object so often.
fn add_copies(out: &mut Vec<ObjId>, object: ObjId, number: usize) -> Result<(), NoMemory>
    ensures { OnOk result (out.new.items ≡ out.old.items ++ replicate number object) }
{
    for _ in 0..number {
        out.push(object)?;
    }
    Ok(())
}

/// The same, where there is an object.
fn add_variable(out: &mut Vec<ObjId>, object: Option<ObjId>, number: usize) -> Result<(), NoMemory>
    ensures { OnOk result (out.new.items ≡ out.old.items ++ copies object number) }
{
    match object {
        Some(object) => add_copies(out, object, number),
        None => Ok(()),
    }
}

/// Appends the objects of the variables of a frame.
fn add_variables(
    out: &mut Vec<ObjId>,
    table: &[MaybeObject; VARIABLES],
    counts: &Counts,
) -> Result<(), NoMemory>
    ensures { OnOk result (out.new.items ≡ out.old.items ++ below (counted_objects table.now counts.now) VARIABLES) }
{
    for v in 0..VARIABLES {
        let number = counts.given[v].saturating_sub(counts.released[v]);
        add_variable(out, table[v].object(), number)?;
    }
    Ok(())
}

/// Appends the object of an item of work, where that is a release.
fn add_item(out: &mut Vec<ObjId>, item: &Work) -> Result<(), NoMemory>
    ensures { OnOk result (out.new.items ≡ out.old.items ++ owed_objects (work_of item.now ∷ [])) }
{
    match item {
        Work::Release(object) => add_copies(out, *object, 1),
        Work::Spend(_) => Ok(()),
        Work::Slots { .. } => Ok(()),
    }
}

/// Appends the objects whose release work owes, of which the first item stands last.
fn add_owed(out: &mut Vec<ObjId>, work: &[Work]) -> Result<(), NoMemory>
    ensures { OnOk result (out.new.items ≡ out.old.items ++ owed_objects (works_of work.now)) }
{
    let mut rest = work;
    while let Some((item, others)) = rest.split_last() {
        add_item(out, item)?;
        rest = others;
    }
    Ok(())
}
