//! What a script is: its classes, blocks, statements and names, the refusals of a text and of a script, and the
//! definitions of a script's text and of an owned script.
#![tactic(auto)]

mod counts;
mod examples;
mod form;
mod laws;
mod literal;
mod mention;
mod ownership;
mod place;
mod refusal;
mod script;
mod statement;
mod text_rows;

pub use counts::Counts;
pub use examples::{a_script_that_is_owned, an_owned_script_fits, scripts_that_are_not_owned};
pub use form::{BlockKind, NameTable, Operand, StatementForm};
pub use laws::{
    a_line_has_the_words_that_are_found, a_text_has_numbers_that_fit, each_text_is_read_or_refused,
    packs_are_within, statements_name_their_own, texts_are_of_the_stage,
};
pub use literal::{DataLiteral, TextLiteral};
pub use mention::{Mention, ModeWord, Ownership, ThreadWord};
pub use place::Place;
pub use refusal::{Reason, Refusal};
pub use script::{Block, ClassLine, Given, Handler, Parts, Script};
pub use statement::Statement;
pub use text_rows::{a_text_and_its_script, texts_with_faulty_blocks, texts_with_faulty_lines};
