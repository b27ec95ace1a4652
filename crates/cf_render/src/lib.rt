//! What is written of a journal: a line for each entry, a line for each object that is left, and the end line.
#![tactic(auto)]

mod ends;
mod entry;
mod entry_words;
mod laws;
mod lines;
mod names;
mod objects;
mod put;
mod statement_words;
mod statements;
mod tally;
mod whole;
mod word;

pub use ends::end_lines;
pub use entry::{is_written, line, put_line};
pub use laws::{edges_in_any_order, objects_are_told};
pub use lines::{
    lines_of_a_common_item, lines_of_a_cycle, lines_of_a_key_that_stays, lines_of_a_plain_array,
    lines_of_a_quiet_signal, lines_of_a_slow_clock, lines_of_a_stall, lines_of_a_worker,
    lines_of_an_early_wake, lines_of_three_signals, lines_of_two_equal_elements,
    lines_of_two_posts, lines_of_two_releases, lines_of_what_was_taken_out,
};
pub use std::alloc::AllocError as NoMemory;
pub use whole::render;
