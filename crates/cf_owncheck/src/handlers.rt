//! The first fault of handlers: of their statements, and of what they leave to their variables.
ghost use Rattle.std.specs.Prelude.{◌≡◌, ◌∷◌, ◌+◌, ◌<◌, ◌^◌, ℕ, List, [], map};
ghost use Rattle.std.specs.List.{list_all};
ghost use Rattle.cf_syntax.specs.Counting.{Counted, HasRoom};
ghost use Rattle.cf_syntax.specs.BlockLines.{BlockLine, begins, says, line_ownership};
ghost use Rattle.cf_syntax.specs.Owned.{is_left, is_settled, balance_fault, handler_fault, handlers_fault};

use crate::statements::statements_fault;
use cf_ids::VarId;
use cf_syntax::{Block, Counts, Ownership, Reason, Refusal, Script, Statement};

/// `info`, the first variable of a handler.
const INFO: VarId = VarId(0);

/// Whether a variable has as many references as a handler leaves to it.
fn has_rest(counts: &Counts, variable: VarId) -> bool
    ensures { (xs : List BlockLine) → Counted counts.now xs → result ≡ is_left xs variable }
{
    let kept = if variable.0 == 0 { 1 } else { 0 };
    let given = counts.given(variable);
    let taken = counts.released(variable);
    taken <= given && given - taken == kept
}

/// Whether the variable that a line changes has them.
fn is_settled(counts: &Counts, ownership: &Ownership) -> bool
    ensures { (xs : List BlockLine) → Counted counts.now xs → result ≡ is_settled xs ownership.now }
{
    match ownership {
        Ownership::Keeps => true,
        Ownership::Binds(variable) => has_rest(counts, *variable),
        Ownership::Retains(variable) => has_rest(counts, *variable),
        Ownership::Releases(variable) => has_rest(counts, *variable),
    }
}

/// Whether the variables that statements change have them.
fn are_settled(counts: &Counts, statements: &[Statement]) -> bool
    ensures { (xs : List BlockLine) → Counted counts.now xs → result ≡ list_all (λ x. is_settled xs (line_ownership x)) (map says statements.now) }
{
    for statement in statements {
        if !is_settled(counts, &statement.ownership()) {
            return false;
        }
    }
    true
}

/// The fault of what a handler leaves, by the counts of its lines.
fn balance_fault(counts: &Counts, statements: &[Statement]) -> Option<Reason>
    ensures { Counted counts.now (begins 0 ∷ map says statements.now) → result ≡ balance_fault (begins 0 ∷ map says statements.now) }
{
    if has_rest(counts, INFO) && are_settled(counts, statements) {
        None
    } else {
        Some(Reason::Unbalanced)
    }
}

/// The counts as a handler's block begins: `info` has one reference.
fn handler_counts() -> Counts
    ensures counted { Counted result (begins 0 ∷ []) }
    ensures room { (n : ℕ) → n + 1 < 2 ^ 64 → HasRoom result n }
{
    let mut counts = Counts::new();
    counts.count(Ownership::Binds(INFO));
    counts
}

/// The first fault of a handler's block.
fn handler_fault(script: &Script, block: &Block) -> Option<Refusal>
    ensures { result ≡ handler_fault script.now block.now }
{
    let mut counts = handler_counts();
    let statements = block.statements.as_slice();
    let lines = block.lines.as_slice();
    if let Some(refusal) = statements_fault(script, &mut counts, lines, statements) {
        return Some(refusal);
    }
    match balance_fault(&counts, statements) {
        None => None,
        Some(reason) => Some(Refusal {
            line: block.last,
            reason,
        }),
    }
}

/// The first fault of handlers.
pub(crate) fn handlers_fault(script: &Script, blocks: &[Block]) -> Option<Refusal>
    ensures { result ≡ handlers_fault script.now blocks.now }
{
    for block in blocks {
        if let Some(refusal) = handler_fault(script, block) {
            return Some(refusal);
        }
    }
    None
}
