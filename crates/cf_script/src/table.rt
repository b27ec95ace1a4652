//! The table of the forms of statements, and the form of a line.
ghost use Rattle.std.specs.Prelude.{◌≡◌, ◌≤◌, ◌&&◌, ◌||◌, IfSome, Some, length, map, nat_lt, true};
ghost use Rattle.std.specs.List.{list_any};
ghost use Rattle.std.specs.Option.{option_map};
ghost use Rattle.cf_ids.specs.declared.limits.TheConstants.{VARIABLES};
ghost use Rattle.cf_syntax.specs.FormTable.{forms_now};
ghost use Rattle.cf_syntax.specs.FormWords.{is_kind, starts, begins, has_count, find_row, form_of};
ghost use Rattle.cf_script.specs.Views.{lent};
ghost use Rattle.cf_script.specs.TableViews.{form_word_of, kind_of, found_row, are_apart};

use crate::forms::FORMS;
use crate::hints::{HINTS, hint_of};
use crate::words::{is, word_at};
use cf_syntax::{Operand, Reason, StatementForm};

/// A form: its first word, the kind after `make V` where it has one, and what each word after the first has to be.
#[derive(Clone, Copy)]
pub(crate) struct FormWord {
    pub word: &'static [u8],
    pub kind: Option<&'static [u8]>,
    pub operands: &'static [Operand],
    pub form: StatementForm,
}

/// Whether a word is the kind of a form, where the form has one.
#[inline(always)]
fn is_kind(kind: &Option<&'static [u8]>, word: &[u8]) -> bool
    ensures { result ≡ is_kind (kind_of kind.now) word.now }
{
    match kind {
        None => true,
        Some(kind) => is(word, kind),
    }
}

/// Whether the first word of a line is that of a form.
#[inline(always)]
fn starts(form_word: &FormWord, words: &[&[u8]]) -> bool
    ensures { result ≡ starts (form_word_of form_word.now) (lent words.now) }
{
    is(word_at(words, 0), form_word.word)
}

/// Whether the words of a line begin a form.
#[inline(always)]
fn begins(form_word: &FormWord, words: &[&[u8]]) -> bool
    ensures { result ≡ begins (form_word_of form_word.now) (lent words.now) }
{
    starts(form_word, words) && is_kind(&form_word.kind, word_at(words, 2))
}

/// Whether the words of a line begin a form and are as many as its words.
#[inline(always)]
fn fits(form_word: &FormWord, words: &[&[u8]]) -> bool
    ensures { result ≡ (let r = form_word_of form_word.now in
        begins r (lent words.now) && has_count r (lent words.now)) }
{
    begins(form_word, words) && words.len() == 1 + form_word.operands.len()
}

/// Whether the first word of a line begins one of some forms.
fn any_starts(rows: &[FormWord], words: &[&[u8]]) -> bool
    ensures { result ≡ list_any (λ r. starts r (lent words.now)) (map form_word_of rows.now) }
{
    for form_word in rows {
        if starts(form_word, words) {
            return true;
        }
    }
    false
}

/// Whether the words of a line begin one of some forms.
fn any_begins(rows: &[FormWord], words: &[&[u8]]) -> bool
    ensures { result ≡ list_any (λ r. begins r (lent words.now)) (map form_word_of rows.now) }
{
    for form_word in rows {
        if begins(form_word, words) {
            return true;
        }
    }
    false
}

/// The first of some forms that the words of a line begin, with as many words as it has. Its place is noted.
fn find_row(rows: &'static [FormWord], words: &[&[u8]], place: &mut u8) -> Option<&'static FormWord>
    requires { length rows.now ≤ VARIABLES }
    ensures { option_map (λ r. form_word_of r.now) result
        ≡ find_row (λ r. begins r (lent words.now) && has_count r (lent words.now)) (map form_word_of rows.now) }
{
    for (i, form_word) in rows.iter().enumerate() {
        if fits(form_word, words) {
            *place = i as u8;
            return Some(form_word);
        }
    }
    None
}

/// Whether a line is too short to have a kind, or its words begin a form with their kind.
fn has_kind(words: &[&[u8]]) -> bool
    ensures { result ≡ (nat_lt (length (lent words.now)) 3 || list_any (λ r. begins r (lent words.now)) forms_now) }
{
    words.len() < 3 || any_begins(&FORMS, words)
}

/// The form of a line, or what it wants of one. The place of a form is noted.
#[inline(never)]
fn search_form(words: &[&[u8]], place: &mut u8) -> Result<&'static FormWord, Reason>
    ensures { found_row result ≡ form_of (lent words.now) }
{
    if let Some(form_word) = find_row(&FORMS, words, place) {
        return Ok(form_word);
    }
    if !any_starts(&FORMS, words) {
        return Err(Reason::Word);
    }
    if !has_kind(words) {
        return Err(Reason::Kind);
    }
    Err(Reason::Arity)
}

/// The form at a place of some forms, if the words of a line begin it and are as many as its words.
#[inline(always)]
fn row_at(rows: &'static [FormWord], words: &[&[u8]], place: u8) -> Option<&'static FormWord>
    ensures { are_apart (map form_word_of rows.now) ≡ true
        → IfSome result (λ r. find_row (λ x. begins x (lent words.now) && has_count x (lent words.now)) (map form_word_of rows.now)
        ≡ Some (form_word_of r.now)) }
{
    let form_word = rows.get(usize::from(place))?;
    if fits(form_word, words) {
        Some(form_word)
    } else {
        None
    }
}

/// Where the forms were found last whose first words end in certain bytes.
#[derive(Drop)]
pub(crate) struct FormHints {
    places: [u8; HINTS],
}

impl FormHints {
    /// Before any form is found.
    pub fn new() -> FormHints {
        FormHints { places: [0; HINTS] }
    }

    /// The form of a line. It is where its hint says, unless another form stands there.
    #[inline(always)]
    pub fn form_of(&mut self, words: &[&[u8]]) -> Result<&'static FormWord, Reason>
        ensures { found_row result ≡ form_of (lent words.now) }
    {
        let hint = hint_of(word_at(words, 0));
        if let Some(form_word) = row_at(&FORMS, words, self.places[hint]) {
            return Ok(form_word);
        }
        search_form(words, &mut self.places[hint])
    }
}
