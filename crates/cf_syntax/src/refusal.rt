//! Why a script is refused.

/// The reason of a refusal, in the order in which the reasons of a line are tried, those of the reader first.
#[derive(Clone, Copy, Debug, PartialEq, Eq)]
pub enum Reason {
    /// The file has more bytes than a script may have.
    TooLong,
    /// The script is accepted, but has blocks that the program cannot run yet.
    Unread,
    /// The line's bytes are not UTF-8.
    NotUtf8,
    /// A word that begins with a quote is not a TEXT of its form, another word has a quote, or a word in the place of
    /// a TEXT does not begin with one.
    Text,
    /// Line 1 is not the two words `cf` and `1`.
    Header,
    /// The first word begins no form that may stand here.
    Word,
    /// A class line after setup, a thread before setup or after a handler, or a handler before setup.
    Order,
    /// No kind stands after `make V`, or a word is not one of the fixed words that its form has there.
    Kind,
    /// The number of words is not the form's.
    Arity,
    /// A word is no name, or none of the words that its form takes in place of one.
    Name,
    /// A word is no number of its form.
    Number,
    /// A word is no HEX.
    Hex,
    /// A second setup, or a name of a thread, a handler or a class that was used before for the same.
    Twice,
    /// One class, thread, handler, mode, notice or variable too many.
    TooMany,
    /// The file ends inside a block.
    Open,
    /// The file ends, and there was no setup.
    NoSetup,
    /// A variable that is used is not bound before in its block, or a handler, thread or class is not there.
    Undefined,
    /// A variable that is to be bound is bound already in its block.
    Redefined,
    /// A variable that is used is bound, and owns no reference.
    Unowned,
    /// At the end of a handler `info` has not one reference, or another variable has any.
    Unbalanced,
}

/// A refusal: the line that has the fault, counted from 1, or 0 if no line is told, and the
/// reason.
#[derive(Clone, Copy, Debug, PartialEq, Eq)]
pub struct Refusal {
    /// The line, counted from 1, or 0.
    pub line: u32,
    /// The reason.
    pub reason: Reason,
}
