//! The lines of a script, one after another: what they made so far, and the lines inside a block.
ghost use Rattle.std.specs.Prelude.{◌≡◌, ◌+◌, ◌<◌, ◌^◌, IfOk, IfSome, IsTrue, Ok, OnOk, Some, [], length, map, position};
ghost use Rattle.std.specs.Option.{option_map};
ghost use Rattle.std.specs.Str.{bytes_eq, IsUtf8};
ghost use Rattle.cf_syntax.specs.Words.{words};
ghost use Rattle.cf_syntax.specs.Text.{Opened, start, is_header, new_block, with_statement, is_handler, close_block, end_line, place_line, header_line, spoken_line, after_line, handler_named, ended, script_at, whole};
ghost use Rattle.cf_script.specs.Gives.{GivesAs};
ghost use Rattle.cf_script.specs.Views.{lent};
ghost use Rattle.cf_script.specs.BlockViews.{open_block_of, reading_of, with_line};

use crate::blocks::Blocks;
use crate::classes::Classes;
use crate::fault::LineFault;
use crate::lines::{is_line_utf8, says_nothing};
use crate::names::{Names, copies, in_order};
use crate::openings::after;
use crate::shapes::known_statement;
use crate::statements::read_statement;
use crate::threads::Threads;
use crate::words::{is, word_at, words_of};
use cf_ids::Seq;
use cf_syntax::{Block, BlockKind, Given, Handler, Parts, Reason, Statement};
use std::alloc::{AllocError, Global};

/// A block whose `end` is still to come.
#[derive(Drop)]
pub(crate) struct OpenBlock {
    pub kind: BlockKind,
    pub name: Vec<u8>,
    pub uses: Vec<Given>,
    pub statements: Vec<Statement>,
    pub lines: Vec<u32>,
    pub first: u32,
}

/// What the lines so far made.
#[derive(Drop)]
pub(crate) struct Reader {
    /// How many they are.
    pub count: u32,
    pub classes: Classes,
    /// The blocks that are ended.
    pub blocks: Blocks,
    pub block: Option<OpenBlock>,
    /// How many blocks of threads began, with setup.
    pub threads: usize,
    pub names: Names,
}

/// Whether a line is `cf 1`.
fn is_header(words: &[&[u8]]) -> bool
    ensures { result ≡ is_header (lent words.now) }
{
    words.len() == 2 && is(word_at(words, 0), b"cf") && is(word_at(words, 1), b"1")
}

/// Whether a block is that of a handler.
fn is_handler(kind: BlockKind) -> bool
    ensures { result ≡ is_handler kind }
{
    matches!(kind, BlockKind::Handler)
}

impl OpenBlock {
    /// A statement more, and the number of its line.
    #[inline(always)]
    fn push(&mut self, statement: Statement, line: u32) -> Result<(), LineFault>
        ensures { GivesAs (λ _. open_block_of self.new) result
            (Ok (with_statement (open_block_of self.old) statement line)) }
    {
        self.statements.reserve(1)?;
        self.lines.reserve(1)?;
        self.statements.push_reserved(statement);
        self.lines.push_reserved(line);
        Ok(())
    }

    /// A line with a statement.
    #[inline(always)]
    #[tactic(auto, unfolding(cf_syntax::specs::Text::statement_of))]
    fn statement_line(
        &mut self,
        alloc: Global,
        classes: &Classes,
        threads: &Threads,
        names: &mut Names,
        line: u32,
        words: &[&[u8]],
    ) -> Result<(), LineFault>
        ensures { GivesAs (λ _. record { names = names.new; value = open_block_of self.new }) result
            (with_line classes.now threads.now names.old (open_block_of self.old) line (lent words.now)) }
    {
        let form_word = names.form_of(words)?;
        let in_handler = is_handler(self.kind);
        if let Some(statement) = known_statement(names, in_handler, form_word.form, words) {
            return self.push(statement, line);
        }
        match read_statement(alloc, classes, threads, in_handler, names, form_word, words) {
            Ok(statement) => self.push(statement, line),
            Err(fault) => Err(fault),
        }
    }

    /// The block that a line with this number ends, by the names of its variables.
    fn close(self, variables: Seq<Seq<u8>>, line: u32) -> Block
        ensures { result ≡ close_block (open_block_of self) variables line }
    {
        let OpenBlock {
            name,
            uses,
            statements,
            lines,
            first,
            ..
        } = self;
        Block {
            name: Seq::from_vec(name),
            uses: Seq::from_vec(uses),
            variables,
            statements: Seq::from_vec(statements),
            lines: Seq::from_vec(lines),
            first,
            last: line,
        }
    }
}

impl Reader {
    /// Before line 1.
    pub fn new(alloc: Global) -> Result<Reader, AllocError>
        ensures { IfOk result (λ r. reading_of r ≡ start) }
    {
        Ok(Reader {
            count: 0,
            classes: Classes::new(alloc),
            blocks: Blocks::new(alloc),
            block: None,
            threads: 0,
            names: Names::new(alloc)?,
        })
    }

    /// Begins a block at the line that is read.
    pub fn begin(&mut self, alloc: Global, kind: BlockKind, name: Vec<u8>, uses: Vec<Given>)
        requires { self.old.count + 1 < 2 ^ 32 }
        ensures { reading_of self.new ≡ new_block (reading_of self.old) kind name.items uses.items }
    {
        self.block = Some(OpenBlock {
            kind,
            name,
            uses,
            statements: Vec::new(alloc),
            lines: Vec::new(alloc),
            first: self.count + 1,
        });
    }

    /// The line `end` of a block.
    #[tactic(auto, unfolding(cf_syntax::specs::Text::end_line))]
    fn end_line(&mut self, alloc: Global, words: &[&[u8]]) -> Result<(), LineFault>
        requires { self.old.count + 1 < 2 ^ 32 }
        ensures { (b : Opened) → option_map open_block_of self.old.block ≡ Some b
            → GivesAs (λ _. reading_of self.new) result (end_line (reading_of self.old) b (lent words.now)) }
    {
        if words.len() != 1 {
            return Err(LineFault::Faulty(Reason::Arity));
        }
        if let Some(block) = self.block.take() {
            let variables = self.names.take_variables(alloc);
            let names = copies(alloc, variables.as_slice())?;
            self.blocks
                .push(block.close(names, self.count + 1), variables)?;
        }
        Ok(())
    }

    /// A line that says something, after line 1, by its words.
    #[inline(always)]
    fn place_line(
        &mut self,
        alloc: Global,
        threads: &Threads,
        words: &[&[u8]],
    ) -> Result<(), LineFault>
        requires { self.old.count + 1 < 2 ^ 32 }
        ensures { GivesAs (λ _. reading_of self.new) result
            (place_line threads.now (reading_of self.old) (option_map open_block_of self.old.block) (lent words.now)) }
    {
        let line = self.count + 1;
        match &mut self.block {
            None => self.outside(alloc, words),
            Some(_) if is(word_at(words, 0), b"end") => self.end_line(alloc, words),
            Some(block) => {
                block.statement_line(alloc, &self.classes, threads, &mut self.names, line, words)
            }
        }
    }

    /// A line that says something.
    #[inline(always)]
    #[tactic(auto, unfolding(cf_syntax::specs::Text::spoken_line, cf_syntax::specs::Text::header_line))]
    fn spoken_line<'a>(
        &mut self,
        alloc: Global,
        threads: &Threads,
        found: &mut Vec<&'a [u8]>,
        line: &'a [u8],
        has_words: bool,
    ) -> Result<(), LineFault>
        requires count { self.old.count + 1 < 2 ^ 32 }
        requires words { IsTrue has_words → words line.now ≡ Some (lent found.old.items) }
        ensures { GivesAs (λ _. reading_of self.new) result (spoken_line threads.now (reading_of self.old) line.now) }
    {
        words_of(found, line, has_words)?;
        let words = found.as_slice();
        if self.count != 0 {
            return self.place_line(alloc, threads, words);
        }
        if is_header(words) {
            Ok(())
        } else {
            Err(LineFault::Faulty(Reason::Header))
        }
    }

    /// A line more; it may be known that it is UTF-8, and `found` may have its words.
    #[tactic(auto, unfolding(cf_syntax::specs::Text::after_line))]
    pub fn after_line<'a>(
        &mut self,
        alloc: Global,
        threads: &Threads,
        found: &mut Vec<&'a [u8]>,
        line: &'a [u8],
        is_known: bool,
        has_words: bool,
    ) -> Result<(), LineFault>
        requires count { self.old.count + 1 < 2 ^ 32 }
        requires utf8 { IsTrue is_known → IsUtf8 line.now }
        requires words { IsTrue has_words → words line.now ≡ Some (lent found.old.items) }
        ensures read { GivesAs (λ _. reading_of self.new) result (after_line threads.now (reading_of self.old) line.now) }
        ensures count { OnOk result (self.new.count ≡ self.old.count + 1) }
    {
        if !is_line_utf8(line, is_known) {
            return Err(LineFault::Faulty(Reason::NotUtf8));
        }
        let count = self.count + 1;
        if self.count == 0 || !says_nothing(line) {
            self.spoken_line(alloc, threads, found, line, has_words)?;
        }
        self.count = count;
        Ok(())
    }
}

/// The place of the first block with a name.
fn block_named(blocks: &[Block], name: &[u8]) -> Option<usize>
    ensures place { result ≡ position (λ b. bytes_eq name.now b.name) blocks.now }
    ensures within { IfSome result (λ i. i < length blocks.now) }
{
    blocks
        .iter()
        .position(|block| is(name, block.name.as_slice()))
}

/// A handler and the place of its block.
fn handler_named(threads: usize, blocks: &[Block], name: Seq<u8>) -> Handler
    ensures { result ≡ handler_named threads blocks.now name }
{
    match block_named(after(blocks, threads), name.as_slice()) {
        None => Handler { name, block: None },
        Some(place) => Handler {
            name,
            block: Some(threads + place),
        },
    }
}

impl Reader {
    /// What is wanting at the end of the text.
    #[tactic(auto, unfolding(cf_syntax::specs::Text::ended))]
    fn ended(&self) -> Result<(), Reason>
        ensures { result ≡ ended (reading_of self.now) }
    {
        if self.count == 0 {
            return Err(Reason::Header);
        }
        if self.block.is_some() {
            return Err(Reason::Open);
        }
        if self.threads == 0 {
            return Err(Reason::NoSetup);
        }
        Ok(())
    }

    /// The parts of the script of the lines.
    fn into_parts(self, alloc: Global) -> Result<Parts, AllocError>
        ensures { IfOk result (λ s. s ≡ script_at (reading_of self)) }
    {
        let Reader {
            classes,
            blocks,
            threads,
            names,
            ..
        } = self;
        let Names {
            handlers,
            modes,
            notices,
            ..
        } = names;
        let handlers = in_order(alloc, handlers)?;
        let handlers = handlers_named(alloc, threads, blocks.as_slice(), handlers)?;
        Ok(Parts {
            classes: classes.into_seq(),
            blocks: blocks.into_seq(),
            thread_count: threads,
            handlers,
            modes: in_order(alloc, modes)?,
            notices: in_order(alloc, notices)?,
        })
    }

    /// The parts of the script at the end of the text.
    #[tactic(auto, unfolding(cf_syntax::specs::Text::whole))]
    pub fn whole(self, alloc: Global) -> Result<Parts, LineFault>
        ensures { GivesAs (λ s. s) result (whole (reading_of self)) }
    {
        self.ended()?;
        Ok(self.into_parts(alloc)?)
    }
}

/// The handlers of some names.
fn handlers_named(
    alloc: Global,
    threads: usize,
    blocks: &[Block],
    names: Seq<Seq<u8>>,
) -> Result<Seq<Handler>, AllocError>
    ensures { IfOk result (λ hs. hs ≡ map (handler_named threads blocks.now) names) }
{
    let handlers: Vec<Handler> = names
        .into_vec()
        .into_iter()
        .map(|name| handler_named(threads, blocks, name))
        .collect(alloc)?;
    Ok(Seq::from_vec(handlers))
}
