//! The lines outside a block: classes, and those that begin blocks.
ghost use Rattle.std.specs.Prelude.{◌≡◌, ◌+◌, ◌<◌, ◌^◌, IfOk, drop};
ghost use Rattle.cf_syntax.specs.Text.{has_words, thread_operands, numbered_uses, block_has_name, class_line, setup_line, givens_of, setup_variables, thread_line, handler_line, outside};
ghost use Rattle.cf_script.specs.Gives.{GivesAs};
ghost use Rattle.cf_script.specs.Views.{lent};
ghost use Rattle.cf_script.specs.NamesViews.{with_line_numbers_of};
ghost use Rattle.cf_script.specs.BlockViews.{reading_of};

use crate::block::Reader;
use crate::blocks::Blocks;
use crate::fault::LineFault;
use crate::names::{LineNumbers, Names, number_words};
use crate::numbers::field_count_at;
use crate::operands::are_of;
use crate::words::{is, word_at};
use cf_ids::{Seq, THREADS, VarId};
use cf_syntax::{Block, BlockKind, ClassLine, Given, NameTable, Operand, Reason};
use std::alloc::{AllocError, Global};

/// The words after the first of a class line.
const CLASS_OPERANDS: [Operand; 5] = [
    Operand::Class,
    Operand::Fields,
    Operand::FieldCount,
    Operand::Equal,
    Operand::Equality,
];

/// The words after the first of a handler's line.
const HANDLER_OPERANDS: [Operand; 1] = [Operand::Handler];

/// The words after the first, or none.
fn after_first<'a, 'b>(words: &'b [&'a [u8]]) -> &'b [&'a [u8]]
    ensures { result.now ≡ drop 1 words.now }
{
    match words {
        [] => &[],
        [_, rest @ ..] => rest,
    }
}

/// Whether as many words as operands, and one more, are each what they have to be.
fn has_words(operands: &[Operand], words: &[&[u8]]) -> Result<(), Reason>
    ensures { result ≡ has_words operands.now (lent words.now) }
{
    if words.len() != 1 + operands.len() {
        return Err(Reason::Arity);
    }
    are_of(false, operands, after_first(words))
}

/// Whether blocks have a name.
fn block_has_name(blocks: &[Block], name: &[u8]) -> bool
    ensures { result ≡ block_has_name blocks.now name.now }
{
    blocks.iter().any(|block| is(name, block.name.as_slice()))
}

impl Reader {
    /// A class line.
    #[tactic(auto, unfolding(cf_syntax::specs::Text::class_line))]
    fn class_line(&mut self, alloc: Global, words: &[&[u8]]) -> Result<(), LineFault>
        ensures { GivesAs (λ _. reading_of self.new) result (class_line (reading_of self.old) (lent words.now)) }
    {
        if self.threads != 0 {
            return Err(LineFault::Faulty(Reason::Order));
        }
        has_words(&CLASS_OPERANDS, words)?;
        let name = word_at(words, 1);
        if self.classes.has(name) {
            return Err(LineFault::Faulty(Reason::Twice));
        }
        if !self.classes.has_room() {
            return Err(LineFault::Faulty(Reason::TooMany));
        }
        let class = ClassLine {
            name: Seq::from_vec(Vec::from_slice(alloc, name)?),
            fields: field_count_at(words, 3),
            keyed: is(word_at(words, 5), b"key"),
        };
        self.classes.push(alloc, class)?;
        Ok(())
    }

    /// The line `setup`.
    #[tactic(auto, unfolding(cf_syntax::specs::Text::setup_line))]
    fn setup_line(&mut self, alloc: Global, words: &[&[u8]]) -> Result<(), LineFault>
        requires { self.old.count + 1 < 2 ^ 32 }
        ensures { GivesAs (λ _. reading_of self.new) result (setup_line (reading_of self.old) (lent words.now)) }
    {
        has_words(&[], words)?;
        if self.threads != 0 {
            return Err(LineFault::Faulty(Reason::Twice));
        }
        let name = Vec::from_slice(alloc, b"setup")?;
        self.begin(alloc, BlockKind::Setup, name, Vec::new(alloc));
        self.threads = 1;
        Ok(())
    }

    /// A line that begins a handler.
    #[tactic(auto, unfolding(cf_syntax::specs::Text::handler_line))]
    fn handler_line(&mut self, alloc: Global, words: &[&[u8]]) -> Result<(), LineFault>
        requires { self.old.count + 1 < 2 ^ 32 }
        ensures { GivesAs (λ _. reading_of self.new) result (handler_line (reading_of self.old) (lent words.now)) }
    {
        if self.threads == 0 {
            return Err(LineFault::Faulty(Reason::Order));
        }
        has_words(&HANDLER_OPERANDS, words)?;
        let name = word_at(words, 1);
        if block_has_name(after(self.blocks.as_slice(), self.threads), name) {
            return Err(LineFault::Faulty(Reason::Twice));
        }
        self.names.number(alloc, NameTable::Handlers, name)?;
        self.names.begin_handler(alloc)?;
        let name = Vec::from_slice(alloc, name)?;
        self.begin(alloc, BlockKind::Handler, name, Vec::new(alloc));
        Ok(())
    }

    /// A line that begins a thread.
    #[tactic(auto, unfolding(cf_syntax::specs::Text::thread_line))]
    fn thread_line(&mut self, alloc: Global, words: &[&[u8]]) -> Result<(), LineFault>
        requires { self.old.count + 1 < 2 ^ 32 }
        ensures { GivesAs (λ _. reading_of self.new) result (thread_line (reading_of self.old) (lent words.now)) }
    {
        if self.threads == 0 || self.blocks.len() != self.threads {
            return Err(LineFault::Faulty(Reason::Order));
        }
        let operands = thread_operands(alloc, words.len())?;
        has_words(operands.as_slice(), words)?;
        let name = word_at(words, 1);
        if block_has_name(after(self.blocks.as_slice(), 1), name) {
            return Err(LineFault::Faulty(Reason::Twice));
        }
        if self.threads >= THREADS {
            return Err(LineFault::Faulty(Reason::TooMany));
        }
        let used = after(words, 3);
        let numbers = number_uses(alloc, &mut self.names, used)?;
        let uses = givens_of(alloc, &self.blocks, used, numbers.variables.as_slice())?;
        let name = Vec::from_slice(alloc, name)?;
        self.begin(alloc, BlockKind::Thread, name, uses);
        self.threads += 1;
        Ok(())
    }

    /// A line outside a block.
    pub fn outside(&mut self, alloc: Global, words: &[&[u8]]) -> Result<(), LineFault>
        requires { self.old.count + 1 < 2 ^ 32 }
        ensures { GivesAs (λ _. reading_of self.new) result (outside (reading_of self.old) (lent words.now)) }
    {
        let first = word_at(words, 0);
        if is(first, b"class") {
            self.class_line(alloc, words)
        } else if is(first, b"setup") {
            self.setup_line(alloc, words)
        } else if is(first, b"thread") {
            self.thread_line(alloc, words)
        } else if is(first, b"handler") {
            self.handler_line(alloc, words)
        } else {
            Err(LineFault::Faulty(Reason::Word))
        }
    }
}

/// What stands from a place on, or nothing.
pub(crate) fn after<T>(list: &[T], from: usize) -> &[T]
    ensures { result.now ≡ drop from list.now }
{
    if from <= list.len() {
        let (_, rest) = list.split_at(from);
        rest
    } else {
        &[]
    }
}

/// What the words after the first of a thread's line of so many words have to be.
fn thread_operands(alloc: Global, count: usize) -> Result<Vec<Operand>, AllocError>
    ensures { IfOk result (λ os. os.items ≡ thread_operands count) }
{
    let mut operands = Vec::new(alloc);
    operands.push(Operand::Class)?;
    if 4 <= count {
        operands.push(Operand::Uses)?;
        operands.resize(count - 1, Operand::Bound)?;
    }
    Ok(operands)
}

/// The words after `uses`, numbered as variables.
fn number_uses(alloc: Global, names: &mut Names, words: &[&[u8]]) -> Result<LineNumbers, LineFault>
    ensures { GivesAs (λ ns. with_line_numbers_of names.new ns) result (numbered_uses names.old (lent words.now)) }
{
    let mut operands = Vec::new(alloc);
    operands.resize(words.len(), Operand::Bound)?;
    let mut numbers = LineNumbers::new(alloc);
    number_words(alloc, names, &mut numbers, operands.as_slice(), words)?;
    Ok(numbers)
}

/// The words after `uses`, as variables of setup and of the thread.
fn givens_of(
    alloc: Global,
    blocks: &Blocks,
    words: &[&[u8]],
    numbers: &[VarId],
) -> Result<Vec<Given>, AllocError>
    ensures { IfOk result (λ us. us.items ≡ givens_of (setup_variables blocks.now) (lent words.now) numbers.now) }
{
    let mut uses = Vec::new(alloc);
    let count = words.len().min(numbers.len());
    for i in 0..count {
        uses.push(Given {
            setup: blocks.setup_variable(words[i]),
            own: numbers[i],
        })?;
    }
    Ok(uses)
}
