//! A script, its classes, its blocks and its names.
ghost use Rattle.std.specs.Prelude.{◌≡◌, ◌≤◌, ◌<◌, ◌↔◌, IfSome, true, length, slice_get};
ghost use Rattle.std.specs.List.{All};
ghost use Rattle.std.specs.Option.{option_copied, option_map};
ghost use Rattle.cf_ids.specs.declared.limits.TheConstants.{THREADS};
ghost use Rattle.cf_syntax.specs.BlockLines.{handler_block};
ghost use Rattle.cf_syntax.specs.Numbered.{FitsText, HasModes, IsNumbered, IsPlaced, ModesNamed, NamesMode, NamesThread, ThreadsNamed};

use crate::statement::Statement;
use cf_ids::{HandlerId, MODES, ModeId, NameId, SCRIPT_BYTES, Seq, THREADS, VarId};
use std::marker::Model;

/// A class line: the class with the type number 14 and the number of class lines before it.
#[derive(Drop)]
pub struct ClassLine {
    /// The name, a NAME.
    pub name: Seq<u8>,
    /// How many fields an instance has.
    pub fields: u8,
    /// Whether instances are equal if their keys are; else each is equal to itself alone.
    pub keyed: bool,
}

/// One word after `uses`: a variable of setup, and the variable of the thread's block that has its
/// object.
#[derive(Clone, Copy)]
pub struct Given {
    /// The variable of setup, where setup has one of that name.
    pub setup: Option<VarId>,
    /// The variable of the thread's own block.
    pub own: VarId,
}

/// A block: its name, its variables in the order of first use, and its statements. In a handler's block variable 0
/// is `info`.
#[derive(Drop)]
pub struct Block {
    /// The name; that of the setup block is `setup`.
    pub name: Seq<u8>,
    /// What the block takes from setup; nothing but in the block of a thread.
    pub uses: Seq<Given>,
    /// The names of the variables, by number.
    pub variables: Seq<Seq<u8>>,
    /// The statements, in order.
    pub statements: Seq<Statement>,
    /// The line of each statement, counted from 1.
    pub lines: Seq<u32>,
    /// The line with which the block begins.
    pub first: u32,
    /// The line of its `end`.
    pub last: u32,
}

/// A handler that a script names.
#[derive(Drop)]
pub struct Handler {
    /// The name, a NAME.
    pub name: Seq<u8>,
    /// The number of its block; none if the script has no block of this handler.
    pub block: Option<usize>,
}

/// What a script is made of: its classes, its blocks in the order of the file, and the names of its handlers, modes
/// and notices in the order of first use. The first block is setup, those of threads follow, and then those of
/// handlers. Mode 0 is `default`.
#[derive(Drop)]
pub struct Parts {
    /// The class lines, in order.
    pub classes: Seq<ClassLine>,
    /// The blocks, in order.
    pub blocks: Seq<Block>,
    /// How many of the blocks are those of threads, with setup.
    pub thread_count: usize,
    /// The handlers, by number.
    pub handlers: Seq<Handler>,
    /// The names of the modes, by number.
    pub modes: Seq<Seq<u8>>,
    /// The names of the notices, by number.
    pub notices: Seq<Seq<u8>>,
}

/// A script: parts whose numbers fit those of actions. There are at most 64 threads, the block of a handler has a
/// number below 65,536, no block has more statements or takes more from setup than a text can have bytes, there are one
/// to 1,024 modes, and a statement names no mode and no thread beyond them.
#[derive(Drop)]
pub struct Script {
    parts: Parts,
}

impl Model for Script {
    ghost use Rattle.cf_syntax.specs.declared.script.Parts.{Parts};
    ghost use Rattle.cf_syntax.specs.Numbered.{IsNumbered};

    ghost Value = { Parts };

    ghost view = { λ s. s.parts };

    ghost invariant = { λ s. IsNumbered s.parts };
}

/// Whether the block of a handler has a number below 65,536.
fn is_placed(handler: &Handler) -> bool
    ensures { (result ≡ true) ↔ IsPlaced handler.now }
{
    match handler.block {
        Some(block) => block <= usize::from(u16::MAX),
        None => true,
    }
}

/// Whether a block is no longer than a text can make it.
fn fits_text(block: &Block) -> bool
    ensures { (result ≡ true) ↔ FitsText block.now }
{
    block.uses.as_slice().len() <= SCRIPT_BYTES && block.statements.as_slice().len() <= SCRIPT_BYTES
}

/// Whether each thread that a block names has a number below this.
fn threads_named(block: &Block, threads: usize) -> bool
    ensures { (result ≡ true) ↔ ThreadsNamed threads block.now }
{
    block
        .statements
        .as_slice()
        .iter()
        .all(|statement| statement.names_thread(threads))
}

/// Whether each mode that a block names has a number below this.
fn modes_named(block: &Block, modes: usize) -> bool
    ensures { (result ≡ true) ↔ ModesNamed modes block.now }
{
    block
        .statements
        .as_slice()
        .iter()
        .all(|statement| statement.names_mode(modes))
}

impl Parts {
    /// Whether there are modes, not too many, and no other is named.
    fn has_modes(&self) -> bool
        ensures { (result ≡ true) ↔ HasModes self.now }
    {
        let modes = self.modes.as_slice().len();
        0 < modes
            && modes <= MODES
            && self
                .blocks
                .as_slice()
                .iter()
                .all(|block| modes_named(block, modes))
    }

    /// Whether no thread is named beyond those that there are.
    fn names_own_threads(&self) -> bool
        ensures { (result ≡ true) ↔ All (ThreadsNamed self.now.thread_count) self.now.blocks }
    {
        self.blocks
            .as_slice()
            .iter()
            .all(|block| threads_named(block, self.thread_count))
    }

    /// Whether the numbers fit those of actions, as those of parts that are read from a text do.
    pub fn are_numbered(&self) -> bool
        ensures { (result ≡ true) ↔ IsNumbered self.now }
    {
        self.thread_count <= THREADS
            && self
                .handlers
                .as_slice()
                .iter()
                .all(|handler| is_placed(handler))
            && self.blocks.as_slice().iter().all(|block| fits_text(block))
            && self.has_modes()
            && self.names_own_threads()
    }
}

impl Script {
    /// The script of parts whose numbers fit, which `are_numbered` tests.
    pub fn new(parts: Parts) -> Script
        requires { IsNumbered parts }
        ensures { result ≡ parts }
    {
        Script { parts }
    }

    /// That its numbers fit, as a fact for those who prove. It does nothing.
    #[inline(always)]
    pub fn has_numbers(&self)
        ensures { IsNumbered self.now }
    {
        let _ = &self.parts;
    }

    /// The class lines, in order.
    pub fn classes(&self) -> &[ClassLine]
        ensures { result.now ≡ self.now.classes }
    {
        self.parts.classes.as_slice()
    }

    /// The blocks, in order.
    pub fn blocks(&self) -> &[Block]
        ensures { result.now ≡ self.now.blocks }
    {
        self.parts.blocks.as_slice()
    }

    /// The class line of type 14 plus this number, and none if there is no such line.
    pub fn class(&self, i: usize) -> Option<&ClassLine>
        ensures { option_copied result ≡ slice_get self.now.classes i }
    {
        self.parts.classes.as_slice().get(i)
    }

    /// The block with this number, and none if there is none. Thread t has block t.
    pub fn block(&self, i: usize) -> Option<&Block>
        ensures { option_copied result ≡ slice_get self.now.blocks i }
    {
        self.parts.blocks.as_slice().get(i)
    }

    /// How many threads there are, with setup.
    pub fn threads(&self) -> usize
        ensures count { result ≡ self.now.thread_count }
        ensures few { result ≤ THREADS }
    {
        self.parts.thread_count
    }

    /// The number of a handler's block, and none if the script has none of that handler.
    pub fn handler(&self, h: HandlerId) -> Option<usize>
        ensures block { result ≡ handler_block self.now h }
        ensures below { IfSome result (λ b. b < 65536) }
    {
        let handler = self.parts.handlers.as_slice().get(usize::from(h.0))?;
        let block = handler.block?;
        if block < self.parts.thread_count {
            None
        } else {
            Some(block)
        }
    }

    /// The name of a handler, and none if no handler has this number.
    pub fn handler_name(&self, h: HandlerId) -> Option<&[u8]>
        ensures { option_copied result ≡ option_map (λ x. x.name) (slice_get self.now.handlers h) }
    {
        let handler = self.parts.handlers.as_slice().get(usize::from(h.0))?;
        Some(handler.name.as_slice())
    }

    /// The name of a mode, and none if no mode has this number.
    pub fn mode(&self, m: ModeId) -> Option<&[u8]>
        ensures { option_copied result ≡ slice_get self.now.modes m }
    {
        let name = self.parts.modes.as_slice().get(usize::from(m.0))?;
        Some(name.as_slice())
    }

    /// How many modes are named, `default` among them.
    pub fn modes(&self) -> usize
        ensures { result ≡ length self.now.modes }
    {
        self.parts.modes.as_slice().len()
    }

    /// The name of a notice, and none if no notice has this number.
    pub fn notice(&self, n: NameId) -> Option<&[u8]>
        ensures { option_copied result ≡ slice_get self.now.notices n }
    {
        let name = self.parts.notices.as_slice().get(usize::from(n.0))?;
        Some(name.as_slice())
    }
}
