//! Texts with their scripts or refusals, which the check computes.
ghost use Rattle.std.specs.Prelude.{◌≡◌};
ghost use Rattle.cf_syntax.specs.Text.{Text};
ghost use Rattle.cf_syntax.specs.TextRows.{blocks_text, blocks_script, refused_blocks, refused_lines, told, wanted};

/// A text of setup, a thread and a handler, and its script.
pub fn a_text_and_its_script()
    ensures { Text blocks_text blocks_script }
{}

/// Texts that are refused for their blocks, each with its line and reason.
pub fn texts_with_faulty_blocks()
    ensures { told refused_blocks ≡ wanted refused_blocks }
{}

/// Texts that are refused for a line of setup, each with its line and reason.
pub fn texts_with_faulty_lines()
    ensures { told refused_lines ≡ wanted refused_lines }
{}
