//! The lines of a block, by their numbers.
ghost use Rattle.std.specs.Prelude.{◌≡◌, ◌≤◌, ◌<◌, length, map, slice_get};
ghost use Rattle.std.specs.Option.{option_copied, option_map};
ghost use Rattle.cf_ids.specs.declared.limits.TheConstants.{THREADS};
ghost use Rattle.cf_syntax.specs.BlockLines.{says, statements_in, uses_in, packs_for, thread_block, thread_blocks, block_of_handler, setup_lines, thread_lines, handler_lines};
ghost use Rattle.cf_next.specs.Demands.{frame_lines};
ghost use Rattle.cf_next.specs.Lines.{line_of};
ghost use Rattle.cf_next.specs.Next.{lines_before};
ghost use Rattle.cf_next.specs.Views.{block_in, kind_of};

use crate::parts::Kind;
use cf_ids::{HandlerId, ThreadId, VarId};
use cf_syntax::{Block, Given, Script, Statement};

/// A line of a block as a thread meets it.
#[derive(Clone, Copy)]
pub(crate) enum Line<'s> {
    /// A variable has an object as the block begins: `info` of a handler.
    Begins,
    /// The thread claims a variable's object from a place of its parcel.
    Claims {
        place: usize,
        variable: VarId,
    },
    /// A statement.
    Says(&'s Statement),
    /// A variable of setup is packed for a place of a thread's parcel.
    Packs {
        thread: ThreadId,
        place: usize,
        variable: Option<VarId>,
    },
}

/// The statements of a block.
fn statements_of<'s>(block: Option<&'s Block>) -> &'s [Statement]
    ensures { result.now ≡ statements_in (option_copied block.entry) }
{
    match block {
        Some(block) => block.statements.as_slice(),
        None => &[],
    }
}

/// What a block takes from setup.
fn uses_of<'s>(block: Option<&'s Block>) -> &'s [Given]
    ensures { result.now ≡ uses_in (option_copied block.entry) }
{
    match block {
        Some(block) => block.uses.as_slice(),
        None => &[],
    }
}

/// A word after `uses`, by its place.
fn given_at(uses: &[Given], place: usize) -> Option<&Given>
    ensures { option_copied result ≡ slice_get uses.now place }
{
    uses.get(place)
}

/// The block of a thread after setup.
fn thread_block(script: &Script, thread: usize) -> Option<&Block>
    ensures { option_copied result ≡ thread_block script.now thread }
{
    if thread < script.threads() {
        script.block(thread)
    } else {
        None
    }
}

/// A statement, as a line.
#[inline(always)]
fn statement_line<'s>(statements: &'s [Statement], number: usize) -> Option<Line<'s>>
    ensures { option_map line_of result ≡ slice_get (map says statements.now) number }
{
    match statements.get(number) {
        Some(statement) => Some(Line::Says(statement)),
        None => None,
    }
}

/// The blocks of threads after setup.
fn thread_blocks(script: &Script) -> &[Block]
    ensures blocks { result.now ≡ thread_blocks script.now }
    ensures few { length result.now < THREADS }
{
    let blocks = script.blocks();
    let count = script.threads().min(blocks.len());
    match blocks[..count].split_first() {
        Some((_, others)) => others,
        None => &[],
    }
}

/// What setup packs for the threads of these blocks, by number.
fn pack_line<'s>(blocks: &'s [Block], number: usize) -> Option<Line<'s>>
    requires { length blocks.now < THREADS }
    ensures { option_map line_of result ≡ slice_get (packs_for 1 blocks.now) number }
{
    let mut rest = blocks;
    let mut left = number;
    let mut thread: u8 = 1;
    while let Some((block, others)) = rest.split_first() {
        let uses = block.uses.as_slice();
        if let Some(given) = given_at(uses, left) {
            return Some(Line::Packs {
                thread: ThreadId(thread),
                place: left,
                variable: given.setup,
            });
        }
        left -= uses.len();
        thread += 1;
        rest = others;
    }
    None
}

/// A line of setup.
#[inline(always)]
fn setup_line(script: &Script, number: usize) -> Option<Line<'_>>
    ensures { option_map line_of result ≡ slice_get (setup_lines script.now) number }
{
    let statements = statements_of(script.block(0));
    if number < statements.len() {
        statement_line(statements, number)
    } else {
        pack_line(thread_blocks(script), number - statements.len())
    }
}

/// A line of another thread's block.
fn later_line(script: &Script, thread: usize, number: usize) -> Option<Line<'_>>
    requires { 0 < thread }
    ensures { option_map line_of result ≡ slice_get (thread_lines script.now thread) number }
{
    let block = thread_block(script, thread);
    let uses = uses_of(block);
    match given_at(uses, number) {
        Some(given) => Some(Line::Claims {
            place: number,
            variable: given.own,
        }),
        None => statement_line(statements_of(block), number - uses.len()),
    }
}

/// A line of a thread's block.
#[inline(always)]
fn thread_line(script: &Script, thread: usize, number: usize) -> Option<Line<'_>>
    ensures { option_map line_of result ≡ slice_get (thread_lines script.now thread) number }
{
    if thread == 0 {
        setup_line(script, number)
    } else {
        later_line(script, thread, number)
    }
}

/// The block of a handler.
fn handler_block(script: &Script, handler: HandlerId) -> Option<&Block>
    ensures { option_copied result ≡ block_of_handler script.now handler }
{
    let block = script.handler(handler)?;
    script.block(block)
}

/// A line of a handler's block.
fn handler_line(script: &Script, handler: HandlerId, number: usize) -> Option<Line<'_>>
    ensures { option_map line_of result ≡ slice_get (handler_lines script.now handler) number }
{
    if number == 0 {
        return Some(Line::Begins);
    }
    statement_line(statements_of(handler_block(script, handler)), number - 1)
}

/// How many lines of a frame's block stand before its first statement.
#[inline(always)]
pub(crate) fn lines_before(script: &Script, kind: &Kind) -> usize
    ensures { result ≡ lines_before script.now (kind_of kind.now) (block_in kind.now) }
{
    match kind {
        Kind::Block(thread) if thread.0 == 0 => 0,
        Kind::Block(thread) => uses_of(thread_block(script, usize::from(thread.0))).len(),
        Kind::Handler { .. } => 1,
        Kind::Run(_) => 0,
    }
}

/// A line of a frame's block; a run has none.
#[inline(always)]
pub(crate) fn kind_line<'s>(script: &'s Script, kind: &Kind, number: usize) -> Option<Line<'s>>
    ensures { option_map line_of result
        ≡ slice_get (frame_lines script.now (kind_of kind.now) (block_in kind.now)) number }
{
    match kind {
        Kind::Block(thread) => thread_line(script, usize::from(thread.0), number),
        Kind::Handler { handler, .. } => handler_line(script, *handler, number),
        Kind::Run(_) => None,
    }
}
