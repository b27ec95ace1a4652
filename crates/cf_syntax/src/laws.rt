//! Laws of the text of a script and of its refusal, and of the words of a line.
ghost use Rattle.std.specs.Prelude.{◌≡◌, ◌<◌, ◌≤◌, ◌⊎◌, ℕ, List, length, Option, Some, slice_get};
ghost use Rattle.cf_ids.specs.declared.limits.TheConstants.{SCRIPT_BYTES};
ghost use Rattle.cf_syntax.specs.Words.{words};
ghost use Rattle.cf_syntax.specs.Numbered.{IsNumbered, NamesOwn};
ghost use Rattle.cf_syntax.specs.Spaced.{Spaced};
ghost use Rattle.cf_syntax.specs.BlockLines.{claims, handler_lines, packs, says, setup_lines, thread_block, thread_lines, uses_in};
ghost use Rattle.cf_syntax.specs.Packs.{IsWithin};
ghost use Rattle.cf_syntax.specs.Stage.{IsOfStage};
ghost use Rattle.cf_syntax.specs.Text.{Text};
ghost use Rattle.cf_syntax.specs.Refusals.{Refused};
ghost use Rattle.cf_syntax.specs.declared.script.Parts.{Parts};
ghost use Rattle.cf_syntax.specs.declared.script.Script.{Script};
ghost use Rattle.cf_syntax.specs.declared.statement.Statement.{Statement};
ghost use Rattle.cf_syntax.specs.declared.refusal.Refusal.{Refusal};

/// Bytes are the text of a script, or they are refused, and not both. A text has one refusal, and is that of one
/// script.
pub fn each_text_is_read_or_refused()
    ensures either { (bs : List ℕ) → ((s : Script) × Text bs s) ⊎ ((r : Refusal) × Refused bs r) }
    ensures not_both { (bs : List ℕ) (s : Script) (r : Refusal) → Text bs s → Refused bs r → ⊥ }
    ensures one_refusal { (bs : List ℕ) (r q : Refusal) → Refused bs r → Refused bs q → r ≡ q }
{}

/// Each statement of a text's script is of a form that the reader takes.
pub fn texts_are_of_the_stage()
    ensures { (bytes : List ℕ) (s : Script) → Text bytes s → IsOfStage s }
{}

/// A script that is read from a text of at most 1,048,576 bytes has numbers that fit those of actions.
pub fn a_text_has_numbers_that_fit()
    ensures { (bs : List ℕ) (s : Parts) → length bs ≤ SCRIPT_BYTES → Text bs s → IsNumbered s }
{}

/// A statement of a script whose numbers fit names a thread and a mode of the script, where it names one.
pub fn statements_name_their_own()
    ensures threads { (s : Script) (t n : ℕ) (x : Statement) → IsNumbered s
        → slice_get (thread_lines s t) n ≡ Some (says x) → NamesOwn s x }
    ensures handlers { (s : Script) (h n : ℕ) (x : Statement) → IsNumbered s
        → slice_get (handler_lines s h) n ≡ Some (says x) → NamesOwn s x }
{}

/// The words that are found in a line are those that it has, and it has no others.
pub fn a_line_has_the_words_that_are_found()
    ensures found { (line : List ℕ) (ws : List (List ℕ)) → words line ≡ Some ws → Spaced line ws }
    ensures only { (line : List ℕ) (ws : List (List ℕ)) → Spaced line ws → words line ≡ Some ws }
{}

/// Each line of setup that packs does so for a thread after setup, and for the place of one of the words after `uses`
/// of that thread's line; and each claim of a thread is of such a place.
pub fn packs_are_within()
    ensures packed { (s : Script) (n u k : ℕ) (v : Option ℕ) → slice_get (setup_lines s) n ≡ Some (packs u k v)
        → IsWithin s u k }
    ensures claimed { (s : Script) (t n k v : ℕ) → slice_get (thread_lines s t) n ≡ Some (claims k v)
        → k < length (uses_in (thread_block s t)) }
{}
