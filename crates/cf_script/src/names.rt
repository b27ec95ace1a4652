//! The names of a script, each numbered in the order of first use.
ghost use Rattle.std.specs.Prelude.{◌≡◌, ◌≤◌, ◌<◌, ℕ, List, [], ◌∷◌, IfOk, IfSome, Ok, OnErr, OnOk, length, codes, true};
ghost use Rattle.cf_ids.specs.declared.limits.TheConstants.{VARIABLES};
ghost use Rattle.cf_syntax.specs.FormWords.{table_of, limit_of, unless_word, form_of, is_variable, with_name, with_number, numbered, numbered_word, numbers_of, no_numbers};
ghost use Rattle.cf_syntax.specs.FormWords as Definitions;
ghost use Rattle.cf_syntax.specs.FormStatements.{word_at};
ghost use Rattle.cf_syntax.specs.Text.{start};
ghost use Rattle.cf_script.specs.Gives.{GivesAs};
ghost use Rattle.cf_script.specs.Views.{lent, texts};
ghost use Rattle.cf_script.specs.Shapes.{IsKnown};
ghost use Rattle.cf_script.specs.TableViews.{found_row};
ghost use Rattle.cf_script.specs.Tables.{AreTested};
ghost use Rattle.cf_script.specs.NamesViews.{number_in, line_numbers_of, with_line_numbers_of};

use crate::fault::LineFault;
use crate::hints::{HINTS, hint_of};
use crate::operands::is_variable;
use crate::table::{FormHints, FormWord};
use crate::words::{is, word_at};
use cf_ids::{HANDLERS, HandlerId, MODES, ModeId, NOTICES, NameId, Seq, VARIABLES, VarId};
use cf_syntax::{NameTable, Operand, Reason};
use indexmap::IndexSet;
use smallvec::SmallVec;
use std::alloc::{AllocError, Global};
use std::marker::Model;

/// The names so far: of the open block's variables, and of the script's handlers, modes and notices.
#[derive(Drop)]
pub(crate) struct Names {
    pub variables: IndexSet<Vec<u8>>,
    /// One more than the place where a variable was found last whose name ends in certain bytes, or 0.
    hints: [u16; HINTS],
    pub handlers: IndexSet<Vec<u8>>,
    pub modes: IndexSet<Vec<u8>>,
    pub notices: IndexSet<Vec<u8>>,
    /// Where the forms of lines were found last.
    forms: FormHints,
}

impl Model for Names {
    ghost use Rattle.cf_syntax.specs.FormWords as Definitions;
    ghost use Rattle.cf_script.specs.Tables.{tables, AreFew, AreTested};
    ghost use Rattle.cf_script.specs.Views.{texts};

    ghost Value = { Definitions.Names };

    ghost view = { λ n. tables n.variables.keys n.handlers.keys n.modes.keys n.notices.keys };

    ghost invariant = { λ n. record {
      few : AreFew n.variables.keys n.handlers.keys n.modes.keys n.notices.keys;
      tested : AreTested n.hints (texts n.variables.keys);
    } };
}

/// The number of a name, of which there may be so many. A new one goes after the others.
fn number_of(
    alloc: Global,
    names: &mut IndexSet<Vec<u8>>,
    limit: usize,
    word: &[u8],
) -> Result<usize, LineFault>
    requires { length names.old.keys ≤ limit }
    ensures place { GivesAs (λ n. n) result (number_in limit word.now (texts names.old.keys)) }
    ensures names { OnOk result (texts names.new.keys ≡ with_name (texts names.old.keys) word.now) }
    ensures below { IfOk result (λ n. n < limit) }
    ensures few { length names.new.keys ≤ limit }
    ensures kept { OnErr result (names.new.keys ≡ names.old.keys) }
{
    if let Some(place) = names.get_index_of(word) {
        return Ok(place);
    }
    if names.len() == limit {
        return Err(LineFault::Faulty(Reason::TooMany));
    }
    let (place, _) = names.insert_full(Vec::from_slice(alloc, word)?)?;
    Ok(place)
}

/// The number of a variable that its hint leads to.
#[inline(always)]
fn hinted_variable(names: &IndexSet<Vec<u8>>, hints: &[u16; HINTS], word: &[u8]) -> Option<usize>
    requires { length names.now.keys ≤ VARIABLES }
    ensures place { IfSome result (λ n. number_in VARIABLES word.now (texts names.now.keys) ≡ Ok n) }
    ensures names { IfSome result (λ n. texts names.now.keys ≡ with_name (texts names.now.keys) word.now) }
    ensures below { IfSome result (λ n. n < VARIABLES) }
    ensures tested { IfSome result (λ n. AreTested hints.now (texts names.now.keys) → is_variable true word.now ≡ true) }
{
    let hint = hints[hint_of(word)];
    if hint == 0 {
        return None;
    }
    let place = usize::from(hint - 1);
    let name = names.as_slice().get(place)?;
    if is(word, name.as_slice()) {
        Some(place)
    } else {
        None
    }
}

/// Lets the hint of a word lead to a variable's place, if it is one that a form may use.
fn note_hint(hints: &mut [u16; HINTS], word: &[u8], place: usize)
    requires { place < VARIABLES }
    ensures { (names : List (List ℕ)) → AreTested hints.old names → word_at names place ≡ word.now
        → AreTested hints.new names }
{
    if is_variable(true, word) {
        hints[hint_of(word)] = place as u16 + 1;
    }
}

/// The number of a variable. It is where its hint says, unless another name stands there.
fn variable_number(
    alloc: Global,
    names: &mut IndexSet<Vec<u8>>,
    hints: &mut [u16; HINTS],
    word: &[u8],
) -> Result<usize, LineFault>
    requires few { length names.old.keys ≤ VARIABLES }
    requires tested { AreTested hints.old (texts names.old.keys) }
    ensures place { GivesAs (λ n. n) result (number_in VARIABLES word.now (texts names.old.keys)) }
    ensures names { OnOk result (texts names.new.keys ≡ with_name (texts names.old.keys) word.now) }
    ensures below { IfOk result (λ n. n < VARIABLES) }
    ensures few { length names.new.keys ≤ VARIABLES }
    ensures tested { AreTested hints.new (texts names.new.keys) }
{
    if let Some(place) = hinted_variable(names, hints, word) {
        return Ok(place);
    }
    let place = number_of(alloc, names, VARIABLES, word)?;
    note_hint(hints, word, place);
    Ok(place)
}

impl Names {
    /// Before line 1: `default` is mode 0.
    pub fn new(alloc: Global) -> Result<Names, AllocError>
        ensures { IfOk result (λ names. names ≡ start.names) }
    {
        let mut modes = IndexSet::new(alloc);
        modes.insert(Vec::from_slice(alloc, b"default")?)?;
        Ok(Names {
            variables: IndexSet::new(alloc),
            hints: [0; HINTS],
            handlers: IndexSet::new(alloc),
            modes,
            notices: IndexSet::new(alloc),
            forms: FormHints::new(),
        })
    }

    /// The number of a variable that a form may use, where its hint leads to it.
    #[inline(always)]
    pub fn known(&self, in_handler: bool, word: &[u8]) -> Option<VarId>
        ensures { IfSome result (λ v. IsKnown in_handler self.now word.now v) }
    {
        let place = hinted_variable(&self.variables, &self.hints, word)?;
        if !in_handler && is(word, b"info") {
            return None;
        }
        Some(VarId(place as u16))
    }

    /// The form of a line.
    #[inline(always)]
    pub fn form_of(&mut self, words: &[&[u8]]) -> Result<&'static FormWord, Reason>
        ensures form { found_row result ≡ form_of (lent words.now) }
        ensures names { self.new ≡ self.old }
    {
        self.forms.form_of(words)
    }

    /// The number of a name in its table.
    pub fn number(
        &mut self,
        alloc: Global,
        table: NameTable,
        word: &[u8],
    ) -> Result<usize, LineFault>
        ensures number { GivesAs (λ n. record { names = self.new; value = n }) result
            (numbered table word.now self.old) }
        ensures below { IfOk result (λ n. n < limit_of table) }
    {
        match table {
            NameTable::Variables => {
                variable_number(alloc, &mut self.variables, &mut self.hints, word)
            }
            NameTable::Handlers => number_of(alloc, &mut self.handlers, HANDLERS, word),
            NameTable::Modes => number_of(alloc, &mut self.modes, MODES, word),
            NameTable::Notices => number_of(alloc, &mut self.notices, NOTICES, word),
        }
    }

    /// A handler's block has `info` as its first variable.
    pub fn begin_handler(&mut self, alloc: Global) -> Result<(), AllocError>
        ensures { OnOk result (self.new ≡ record self.old { variables = codes "info" ∷ [] }) }
    {
        let mut variables = IndexSet::new(alloc);
        variables.insert(Vec::from_slice(alloc, b"info")?)?;
        self.variables = variables;
        self.hints = [0; HINTS];
        Ok(())
    }

    /// The variables of the block that ends.
    pub fn take_variables(&mut self, alloc: Global) -> IndexSet<Vec<u8>>
        ensures few { length result.keys ≤ VARIABLES }
        ensures taken { texts result.keys ≡ self.old.variables }
        ensures left { self.new ≡ record self.old { variables = [] } }
    {
        self.hints = [0; HINTS];
        std::mem::replace(&mut self.variables, IndexSet::new(alloc))
    }
}

/// The numbers of a line's names. A form has at most three variables, so that a line takes no memory for them, and one
/// handler, mode and notice.
#[derive(Drop)]
pub(crate) struct LineNumbers {
    pub variables: SmallVec<VarId, 3>,
    pub handler: HandlerId,
    pub mode: ModeId,
    pub notice: NameId,
}

impl LineNumbers {
    /// The numbers of no word.
    pub fn new(alloc: Global) -> LineNumbers
        ensures { line_numbers_of result ≡ record { variables = []; handler = 0; mode = 0; notice = 0 } }
    {
        LineNumbers {
            variables: SmallVec::new(alloc),
            handler: HandlerId(0),
            mode: ModeId(0),
            notice: NameId(0),
        }
    }

    /// The number of a name more.
    fn push(&mut self, table: NameTable, n: usize) -> Result<(), AllocError>
        requires { n < limit_of table }
        ensures { OnOk result (line_numbers_of self.new ≡ with_number table n (line_numbers_of self.old)) }
    {
        match table {
            NameTable::Variables => self.variables.push(VarId(n as u16))?,
            NameTable::Handlers => self.handler = HandlerId(n as u16),
            NameTable::Modes => self.mode = ModeId(n as u16),
            NameTable::Notices => self.notice = NameId(n as u16),
        }
        Ok(())
    }
}

/// A table, unless the word is a fixed one.
fn unless_word(word: &[u8], fixed: &[u8], table: NameTable) -> Option<NameTable>
    ensures { result ≡ unless_word word.now fixed.now table }
{
    if is(word, fixed) { None } else { Some(table) }
}

/// The table of the names among which a word stands, in place of an operand.
fn table_of(operand: Operand, word: &[u8]) -> Option<NameTable>
    ensures { result ≡ table_of operand word.now }
{
    match operand {
        Operand::Bound | Operand::Used => Some(NameTable::Variables),
        Operand::Handler => Some(NameTable::Handlers),
        Operand::Mode => Some(NameTable::Modes),
        Operand::ModeOrCommon => unless_word(word, b"common", NameTable::Modes),
        Operand::Notice => Some(NameTable::Notices),
        Operand::NoticeOrAny => unless_word(word, b"any", NameTable::Notices),
        Operand::Info => unless_word(word, b"nil", NameTable::Variables),
        Operand::Filter => unless_word(word, b"any", NameTable::Variables),
        _ => None,
    }
}

/// The numbers of a line with those of a word more, which may be no name.
fn number_word(
    alloc: Global,
    names: &mut Names,
    numbers: &mut LineNumbers,
    operand: Operand,
    word: &[u8],
) -> Result<(), LineFault>
    ensures { GivesAs (λ _. with_line_numbers_of names.new numbers.new) result
        (numbered_word (table_of operand word.now) word.now (with_line_numbers_of names.old numbers.old)) }
{
    if let Some(table) = table_of(operand, word) {
        let n = names.number(alloc, table, word)?;
        numbers.push(table, n)?;
    }
    Ok(())
}

/// The numbers of a line with those of the words of a form.
pub(crate) fn number_words(
    alloc: Global,
    names: &mut Names,
    numbers: &mut LineNumbers,
    operands: &[Operand],
    words: &[&[u8]],
) -> Result<(), LineFault>
    requires { length words.now ≡ length operands.now }
    ensures { GivesAs (λ _. with_line_numbers_of names.new numbers.new) result
        (numbers_of operands.now (lent words.now) (with_line_numbers_of names.old numbers.old)) }
{
    for (i, operand) in operands.iter().enumerate() {
        number_word(alloc, names, numbers, *operand, word_at(words, i))?;
    }
    Ok(())
}

/// Names in the order of their numbers.
pub(crate) fn in_order(alloc: Global, names: IndexSet<Vec<u8>>) -> Result<Seq<Seq<u8>>, AllocError>
    ensures { IfOk result (λ ns. ns ≡ texts names.keys) }
{
    let names: Vec<Seq<u8>> = names
        .into_iter()
        .map(|name| Seq::from_vec(name))
        .collect(alloc)?;
    Ok(Seq::from_vec(names))
}

/// Copies of names.
pub(crate) fn copies(alloc: Global, names: &[Vec<u8>]) -> Result<Seq<Seq<u8>>, AllocError>
    ensures { IfOk result (λ ns. ns ≡ texts names.now) }
{
    let mut list = Vec::new(alloc);
    for name in names {
        list.push(Seq::from_vec(Vec::from_slice(alloc, name.as_slice())?))?;
    }
    Ok(Seq::from_vec(list))
}
