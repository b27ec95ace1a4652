//! What the words of a form have to be.
ghost use Rattle.std.specs.Prelude.{◌≡◌, [], length};
ghost use Rattle.cf_syntax.specs.FormWords.{is_variable, is_fitting, is_of, reason_of, are_of};
ghost use Rattle.cf_syntax.specs.Numbers.{unum_of, is_zero, is_mask};
ghost use Rattle.cf_script.specs.Views.{lent};

use crate::numbers::{
    index_of, integer_of, is_field_count, is_hex, is_mask, is_zero, kind_of, unum_of,
};
use crate::words::{is, is_name, is_text, word_at};
use cf_number::{Num, NumKind};
use cf_syntax::{Operand, Reason};

/// Whether a word is a variable that a form may use.
#[inline(always)]
pub(crate) fn is_variable(in_handler: bool, word: &[u8]) -> bool
    ensures { result ≡ is_variable in_handler word.now }
{
    is_name(word) || (in_handler && is(word, b"info"))
}

/// Whether a value fits a kind, where both are there.
fn is_fitting(kind: Option<NumKind>, value: Option<i64>) -> bool
    ensures { result ≡ is_fitting kind value }
{
    match (kind, value) {
        (Some(kind), Some(value)) => Num::make(kind, value).is_ok(),
        _ => false,
    }
}

/// Whether a word, after the one before it, is what an operand has to be.
fn is_of(in_handler: bool, operand: Operand, before: &[u8], word: &[u8]) -> bool
    ensures { result ≡ is_of in_handler operand before.now word.now }
{
    match operand {
        Operand::Found => true,
        Operand::Bound | Operand::Class | Operand::Handler | Operand::Mode | Operand::Notice => {
            is_name(word)
        }
        Operand::Used => is_variable(in_handler, word),
        Operand::Thread => is_name(word) || is(word, b"self") || is(word, b"setup"),
        Operand::ModeOrCommon => is_name(word) || is(word, b"common"),
        Operand::NoticeOrAny => is_name(word) || is(word, b"any"),
        Operand::Info => is_variable(in_handler, word) || is(word, b"nil"),
        Operand::Filter => is_variable(in_handler, word) || is(word, b"any"),
        Operand::Text => is_text(word),
        Operand::Hex => is_hex(word),
        Operand::Int => integer_of(word).is_some(),
        Operand::Fitting => is_fitting(kind_of(before), integer_of(word)),
        Operand::Unum => unum_of(word).is_some(),
        Operand::Limit => is_zero(word),
        Operand::Index => index_of(word).is_some(),
        Operand::FieldCount => is_field_count(word),
        Operand::Mask => is_mask(word),
        Operand::Kind => kind_of(word).is_some(),
        Operand::Plain => is(word, b"plain"),
        Operand::Once => is(word, b"once"),
        Operand::Repeats => is(word, b"once") || is(word, b"repeats"),
        Operand::Fields => is(word, b"fields"),
        Operand::Equal => is(word, b"equal"),
        Operand::Equality => is(word, b"identity") || is(word, b"key"),
        Operand::Uses => is(word, b"uses"),
    }
}

/// The reason of a word that is not.
fn reason_of(operand: Operand) -> Reason
    ensures { result ≡ reason_of operand }
{
    match operand {
        Operand::Bound
        | Operand::Used
        | Operand::Class
        | Operand::Handler
        | Operand::Thread
        | Operand::Mode
        | Operand::ModeOrCommon
        | Operand::Notice
        | Operand::NoticeOrAny
        | Operand::Info
        | Operand::Filter => Reason::Name,
        Operand::Text => Reason::Text,
        Operand::Hex => Reason::Hex,
        Operand::Int
        | Operand::Fitting
        | Operand::Unum
        | Operand::Limit
        | Operand::Index
        | Operand::FieldCount
        | Operand::Mask => Reason::Number,
        Operand::Found
        | Operand::Kind
        | Operand::Plain
        | Operand::Once
        | Operand::Repeats
        | Operand::Fields
        | Operand::Equal
        | Operand::Equality
        | Operand::Uses => Reason::Kind,
    }
}

/// Whether as many words as operands are each what theirs has to be, and the reason of the leftmost that is not.
pub(crate) fn are_of(in_handler: bool, operands: &[Operand], words: &[&[u8]]) -> Result<(), Reason>
    requires { length words.now ≡ length operands.now }
    ensures { result ≡ are_of in_handler operands.now [] (lent words.now) }
{
    let mut before: &[u8] = &[];
    for (i, operand) in operands.iter().enumerate() {
        let word = word_at(words, i);
        if !is_of(in_handler, *operand, before, word) {
            return Err(reason_of(*operand));
        }
        before = word;
    }
    Ok(())
}
